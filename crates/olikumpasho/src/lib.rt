// The archive for software in C: every function of `olikumpasho.h`, under its name. Each is the function of that name in a crate `c_*`, with
// its clauses; a crate is a library or an archive, and those are libraries, on which the promises stand.
#![tactic(auto)]

ghost use Rattle.std.specs.Prelude.{◌≡◌, length};
ghost use Rattle.rules.specs.Table.{weighed, most_rows};
ghost use Rattle.rules.specs.Desk.{load_why, load_desk, well_formed};
ghost use Rattle.rules.specs.Decide.{decide_why, decide_desk};
ghost use Rattle.rules.specs.Rewrite.{rewrite_why, rewrite_desk};
ghost use Rattle.rules.specs.TakeBack.{take_back_why, take_back_desk};
ghost use Rattle.rules.specs.Choice.{choice_of, bounded};
ghost use Rattle.rules.specs.Walk.{searched};
ghost use Rattle.rules.specs.Text.{written, write_out};
ghost use Rattle.rules.specs.Reader.{text_read, read_table};
ghost use Rattle.rules.specs.Program.{answered, answer_out};
ghost use Rattle.rules.specs.Wcnf.{wcnf_written, wcnf_out};
ghost use Rattle.rules.specs.WcnfReader.{wcnf_read, wcnf_table};
ghost use Rattle.telling.specs.Told.{told, by_weighed, weight_out, by_bounded, bound_out};
ghost use Rattle.telling.specs.Told.{by_searched, found_out, by_text_read, head_out};
ghost use Rattle.telling.specs.Told.{told_near, by_wcnf_read, figures_out, by_written, length_out};

// A reading's weight, load, and whether a desk is well formed.

#[unsafe(no_mangle)]
pub extern "C" fn olikumpasho_weight_of(
    variables: u64,
    table: &[u64],
    reading: u64,
    found: &mut [u64; 2],
) -> u64
    ensures answer { result ≡ told (by_weighed (weighed variables table.now reading)) }
    ensures lent { found.new ≡ weight_out (weighed variables table.now reading) found.old }
{
    c_desks::olikumpasho_weight_of(variables, table, reading, found)
}

#[unsafe(no_mangle)]
pub extern "C" fn olikumpasho_load(
    variables: u64,
    table: &[u64],
    capacity: u64,
    desk: &mut [u64],
) -> u64
    ensures answer { result ≡ told (load_why variables table.now capacity desk.old) }
    ensures lent { desk.new ≡ load_desk variables table.now capacity desk.old }
{
    c_desks::olikumpasho_load(variables, table, capacity, desk)
}

#[unsafe(no_mangle)]
pub extern "C" fn olikumpasho_well_formed(desk: &[u64]) -> bool
    ensures answer { result ≡ well_formed desk.now }
{
    c_desks::olikumpasho_well_formed(desk)
}

// The steps on a desk.

#[unsafe(no_mangle)]
pub extern "C" fn olikumpasho_decide(desk: &mut [u64], literal: i64) -> u64
    ensures answer { result ≡ told (decide_why desk.old literal) }
    ensures lent { desk.new ≡ decide_desk desk.old literal }
{
    c_steps::olikumpasho_decide(desk, literal)
}

#[unsafe(no_mangle)]
pub extern "C" fn olikumpasho_rewrite(desk: &mut [u64], kind: u64, named: &[u64]) -> u64
    ensures answer { result ≡ told (rewrite_why desk.old kind named.now) }
    ensures lent { desk.new ≡ rewrite_desk desk.old kind named.now }
{
    c_steps::olikumpasho_rewrite(desk, kind, named)
}

#[unsafe(no_mangle)]
pub extern "C" fn olikumpasho_take_back(desk: &mut [u64]) -> u64
    ensures answer { result ≡ told (take_back_why desk.old) }
    ensures lent { desk.new ≡ take_back_desk desk.old }
{
    c_steps::olikumpasho_take_back(desk)
}

// The bound and the search; the desk is only read.

#[unsafe(no_mangle)]
pub extern "C" fn olikumpasho_bound(desk: &[u64], choice: u64, losses: &mut [u64; 3]) -> u64
    ensures answer { result ≡ told (by_bounded (bounded desk.now (choice_of choice))) }
    ensures lent { losses.new ≡ bound_out (bounded desk.now (choice_of choice)) losses.old }
{
    c_searches::olikumpasho_bound(desk, choice, losses)
}

#[unsafe(no_mangle)]
pub extern "C" fn olikumpasho_search(
    desk: &[u64],
    choice: u64,
    budget: u32,
    found: &mut [u64; 5],
) -> u64
    ensures answer { result ≡ told (by_searched (searched desk.now (choice_of choice) budget)) }
    ensures lent { found.new ≡ found_out (searched desk.now (choice_of choice) budget) found.old }
{
    c_searches::olikumpasho_search(desk, choice, budget, found)
}

// Reader, writer and the program's answer.

#[unsafe(no_mangle)]
pub extern "C" fn olikumpasho_read(text: &[u8], table: &mut [u64], head: &mut [u64; 3]) -> u64
    ensures answer { result ≡ told (by_text_read (text_read most_rows text.now (length table.old))) }
    ensures words { table.new ≡ read_table most_rows text.now table.old }
    ensures lent { head.new ≡ head_out (text_read most_rows text.now (length table.old)) head.old }
{
    c_texts::olikumpasho_read(text, table, head)
}

#[unsafe(no_mangle)]
pub extern "C" fn olikumpasho_write(
    variables: u64,
    budget: u32,
    table: &[u64],
    output: &mut [u8],
    size: &mut usize,
) -> u64
    ensures answer { result ≡ told (by_written (written variables budget table.now output.old)) }
    ensures words { output.new ≡ write_out variables budget table.now output.old }
    ensures lent { size.new ≡ length_out (written variables budget table.now output.old) size.old }
{
    c_texts::olikumpasho_write(variables, budget, table, output, size)
}

#[unsafe(no_mangle)]
pub extern "C" fn olikumpasho_answer(input: &[u8], output: &mut [u8], bytes: &mut usize) -> u64
    ensures answer { result ≡ told (by_written (answered input.now output.old)) }
    ensures words { output.new ≡ answer_out input.now output.old }
    ensures lent { bytes.new ≡ length_out (answered input.now output.old) bytes.old }
{
    c_texts::olikumpasho_answer(input, output, bytes)
}

// Reader and writer of competition files.

#[unsafe(no_mangle)]
pub extern "C" fn olikumpasho_read_wcnf(text: &[u8], table: &mut [u64], head: &mut [u64; 2]) -> u64
    ensures answer { result ≡ told_near (by_wcnf_read (wcnf_read most_rows text.now (length table.old))) }
    ensures words { table.new ≡ wcnf_table most_rows text.now table.old }
    ensures lent { head.new ≡ figures_out (wcnf_read most_rows text.now (length table.old)) head.old }
{
    c_wcnf::olikumpasho_read_wcnf(text, table, head)
}

#[unsafe(no_mangle)]
pub extern "C" fn olikumpasho_write_wcnf(
    variables: u64,
    table: &[u64],
    output: &mut [u8],
    size: &mut usize,
) -> u64
    ensures answer { result ≡ told (by_written (wcnf_written variables table.now output.old)) }
    ensures words { output.new ≡ wcnf_out variables table.now output.old }
    ensures lent { size.new ≡ length_out (wcnf_written variables table.now output.old) size.old }
{
    c_wcnf::olikumpasho_write_wcnf(variables, table, output, size)
}
