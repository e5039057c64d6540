// The rewritings: merge, shift, chain and fork. A rewriting is judged whole, then written.
#![tactic(auto)]

ghost use Rattle.std.specs.Prelude.{◌≡◌};
ghost use Rattle.rules.specs.Rewrite.{rewrite_why, rewrite_desk};

use fitting::rewrite_why;
use inner::rewrite_step;
use rules::Refusal;

pub mod inner;

// Merge, shift, chain or fork on the named rows. Callers ask for a kind by its number, and one that is unknown is refused with 13.
pub fn rewrite(desk: &mut [u64], kind: u64, named: &[u64]) -> Result<(), Refusal>
    ensures value { result ≡ rewrite_why desk.old kind named.now }
    ensures desk_after { desk.new ≡ rewrite_desk desk.old kind named.now }
{
    let kind = rewrite_why(desk, kind, named)?;
    rewrite_step(desk, kind, named);
    Ok(())
}
