// For software in C: reader, writer and the program's answer, as `olikumpasho.h` has them.
#![tactic(auto)]

ghost use Rattle.std.specs.Prelude.{◌≡◌, length};
ghost use Rattle.rules.specs.Table.{most_rows};
ghost use Rattle.rules.specs.Text.{written, write_out};
ghost use Rattle.rules.specs.Reader.{text_read, read_table};
ghost use Rattle.rules.specs.Program.{answered, answer_out};
ghost use Rattle.telling.specs.Told.{told, by_text_read, head_out, by_written, length_out};

use telling::inner::tell;

#[unsafe(no_mangle)]
pub extern "C" fn olikumpasho_read(text: &[u8], table: &mut [u64], head: &mut [u64; 3]) -> u64
    ensures answer { result ≡ told (by_text_read (text_read most_rows text.now (length table.old))) }
    ensures words { table.new ≡ read_table most_rows text.now table.old }
    ensures lent { head.new ≡ head_out (text_read most_rows text.now (length table.old)) head.old }
{
    match reader::read(text, table) {
        Err(broken) => tell(Err(broken)),
        Ok(said) => {
            *head = [said.variables, said.budget, said.rows];
            0
        }
    }
}

#[unsafe(no_mangle)]
pub extern "C" fn olikumpasho_write(
    variables: u64,
    budget: u32,
    table: &[u64],
    output: &mut [u8],
    size: &mut usize,
) -> u64
    ensures answer { result ≡ told (by_written (written variables budget table.now output.old)) }
    ensures words { output.new ≡ write_out variables budget table.now output.old }
    ensures lent { size.new ≡ length_out (written variables budget table.now output.old) size.old }
{
    match writer::write(variables, budget, table, output) {
        Err(r) => tell(Err(r)),
        Ok(n) => {
            *size = n;
            0
        }
    }
}

#[unsafe(no_mangle)]
pub extern "C" fn olikumpasho_answer(input: &[u8], output: &mut [u8], bytes: &mut usize) -> u64
    ensures answer { result ≡ told (by_written (answered input.now output.old)) }
    ensures words { output.new ≡ answer_out input.now output.old }
    ensures lent { bytes.new ≡ length_out (answered input.now output.old) bytes.old }
{
    match answer::answer(input, output) {
        Err(why) => tell(Err(why)),
        Ok(n) => {
            *bytes = n;
            0
        }
    }
}
