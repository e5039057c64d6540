// For software in C: reader and writer of competition files, as `olikumpasho.h` has them.
#![tactic(auto)]

ghost use Rattle.std.specs.Prelude.{◌≡◌, length};
ghost use Rattle.rules.specs.Table.{most_rows};
ghost use Rattle.rules.specs.Wcnf.{wcnf_written, wcnf_out};
ghost use Rattle.rules.specs.WcnfReader.{wcnf_read, wcnf_table};
ghost use Rattle.telling.specs.Told.{told, told_near, by_wcnf_read, figures_out, by_written, length_out};

use telling::inner::tell;
use telling::tell_near;

#[unsafe(no_mangle)]
pub extern "C" fn olikumpasho_read_wcnf(text: &[u8], table: &mut [u64], head: &mut [u64; 2]) -> u64
    ensures answer { result ≡ told_near (by_wcnf_read (wcnf_read most_rows text.now (length table.old))) }
    ensures words { table.new ≡ wcnf_table most_rows text.now table.old }
    ensures lent { head.new ≡ figures_out (wcnf_read most_rows text.now (length table.old)) head.old }
{
    match wcnf_reader::read_wcnf(text, table) {
        Err(r) => tell_near(Err(r)),
        Ok(said) => {
            *head = [said.variables, said.rows];
            0
        }
    }
}

#[unsafe(no_mangle)]
pub extern "C" fn olikumpasho_write_wcnf(
    variables: u64,
    table: &[u64],
    output: &mut [u8],
    size: &mut usize,
) -> u64
    ensures answer { result ≡ told (by_written (wcnf_written variables table.now output.old)) }
    ensures words { output.new ≡ wcnf_out variables table.now output.old }
    ensures lent { size.new ≡ length_out (wcnf_written variables table.now output.old) size.old }
{
    match wcnf_writer::write_wcnf(variables, table, output) {
        Err(r) => tell(Err(r)),
        Ok(n) => {
            *size = n;
            0
        }
    }
}
