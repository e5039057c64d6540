// For software in C: the steps on a desk, as `olikumpasho.h` has them.
#![tactic(auto)]

ghost use Rattle.std.specs.Prelude.{◌≡◌};
ghost use Rattle.rules.specs.Decide.{decide_why, decide_desk};
ghost use Rattle.rules.specs.Rewrite.{rewrite_why, rewrite_desk};
ghost use Rattle.rules.specs.TakeBack.{take_back_why, take_back_desk};
ghost use Rattle.telling.specs.Told.{told};

use telling::inner::tell;

#[unsafe(no_mangle)]
pub extern "C" fn olikumpasho_decide(desk: &mut [u64], literal: i64) -> u64
    ensures answer { result ≡ told (decide_why desk.old literal) }
    ensures lent { desk.new ≡ decide_desk desk.old literal }
{
    let decided = deciding::decide(desk, literal);
    tell(decided)
}

#[unsafe(no_mangle)]
pub extern "C" fn olikumpasho_rewrite(desk: &mut [u64], kind: u64, named: &[u64]) -> u64
    ensures answer { result ≡ told (rewrite_why desk.old kind named.now) }
    ensures lent { desk.new ≡ rewrite_desk desk.old kind named.now }
{
    let rewritten = rewrites::rewrite(desk, kind, named);
    tell(rewritten)
}

#[unsafe(no_mangle)]
pub extern "C" fn olikumpasho_take_back(desk: &mut [u64]) -> u64
    ensures answer { result ≡ told (take_back_why desk.old) }
    ensures lent { desk.new ≡ take_back_desk desk.old }
{
    let taken = taking_back::take_back(desk);
    tell(taken)
}
