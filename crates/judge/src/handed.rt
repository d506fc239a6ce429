// A byte that is handed over goes to its place in each lent buffer.
ghost use Rattle.std.specs.Prelude.{◌≡◌};
ghost use Rattle.judge.specs.Reading.{Storable, with_byte, with_ticks};

use reader::State;

// Stores the byte and its two ticks, if the tick from `before` to `after` handed a byte over. Two buffers, as C lends them; by
// the counts, as `with_byte` says.
pub(crate) fn store(bytes: &mut [u8], ledger: &mut [u32], before: State, after: State)
    requires { Storable bytes.old ledger.old before after }
    ensures { (bytes.new ≡ with_byte bytes.old before after)
        × (ledger.new ≡ with_ticks ledger.old before after) }
{
    if after.count != before.count {
        let byte = before.byte();
        let place = before.count as usize;
        bytes[place] = byte.value;
        ledger[2 * place] = byte.let_go;
        ledger[2 * place + 1] = byte.take;
    }
}
