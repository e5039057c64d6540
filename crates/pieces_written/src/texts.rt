// A text that is known whole, put into lent bytes: counted first, then refused for want of room, or stored.
ghost use Rattle.std.specs.Prelude.{◌≡◌, ℕ, List, Ok};
ghost use Rattle.rules.specs.Text.{text_written, text_out};
ghost use Rattle.pieces_written.specs.Stored.{Stored};

use rules::Refusal;

pub trait Text {
    // Its bytes.
    ghost bytes: { Self → List ℕ };

    // Puts them at the front of those lent, as far as there is room, and tells how many they are.
    fn put(&self, out: &mut [u8]) -> usize
        ensures { Stored out.old 0 (bytes self.now) result out.new };
}

// How many bytes the text has, which then stand at the front of those lent; or 4, and they are as they were. The first run over the text
// writes nowhere and tells how long it is.
pub fn store<T: Text>(text: &T, out: &mut [u8]) -> Result<usize, Refusal>
    ensures answer { result ≡ text_written (Ok tt) (T.bytes text.now) out.old }
    ensures bytes { out.new ≡ text_out (Ok tt) (T.bytes text.now) out.old }
{
    let mut nowhere = [0u8; 1];
    let n = text.put(&mut nowhere);
    if out.len() < n {
        return Err(Refusal::NoRoom);
    }
    text.put(out);
    Ok(n)
}
