// The station's entries for programs in C and Rust. Each hands the lent memory on and the answer back, and does nothing else.
#![tactic(auto)]

ghost use Rattle.std.specs.Prelude.{◌≡◌};
ghost use Rattle.answer.specs.Names.{word_of};
ghost use Rattle.command.specs.{Classes.class_of, Classes.class_number, Words.class_word};
ghost use Rattle.transfer.specs.Limits.{command_limits, standard_limits};
ghost use Rattle.judge.specs.Judged as Judged;
ghost use Rattle.judge.specs.Promise.{JudgePromise};
ghost use Rattle.writer.specs.{Card.standard_card, Promise.WritePromise};
ghost use Rattle.writer.specs.Written as Written;
ghost use Rattle.station.specs.Border.{answer_of, Spells};

use answer::Answer;

// An answer as it crosses the border: four numbers of 32 bits, in this order, as `struct station_answer` of include/station.h has them.
#[repr(C)]
#[derive(Clone, Copy)]
pub struct StationAnswer {
    pub number: u32,
    pub tick: u32,
    pub step: u32,
    pub count: u32,
}

// The same four numbers.
impl From<Answer> for StationAnswer {
    ghost from_gives = { λ answer crossing. answer_of crossing ≡ answer };

    fn from(answer: Answer) -> StationAnswer {
        StationAnswer {
            number: u32::from(answer.number),
            tick: answer.tick,
            step: answer.step,
            count: answer.count,
        }
    }
}

// Judges one data transfer. What `judge` promises, of the answer that crosses.
#[unsafe(no_mangle)]
pub extern "C" fn station_judge(file: &[u8], bytes: &mut [u8], ledger: &mut [u32]) -> StationAnswer
    ensures { JudgePromise standard_limits file.now bytes.old ledger.old
        (Judged.leaves (answer_of result) bytes.new ledger.new) }
{
    judge::judge(file, bytes, ledger).into()
}

// Judges one command transfer. What `judge_command` promises, of the answer that crosses. Two entries, as include/station.h declares them.
#[unsafe(no_mangle)]
pub extern "C" fn station_judge_command(
    file: &[u8],
    bytes: &mut [u8],
    ledger: &mut [u32],
) -> StationAnswer
    ensures { JudgePromise command_limits file.now bytes.old ledger.old
        (Judged.leaves (answer_of result) bytes.new ledger.new) }
{
    judge::judge_command(file, bytes, ledger).into()
}

// Writes the sample recording of the bytes. What `write` promises, of the answer that crosses.
#[unsafe(no_mangle)]
pub extern "C" fn station_write(bytes: &[u8], destination: &mut [u8]) -> StationAnswer
    ensures { WritePromise standard_limits standard_card bytes.now destination.old
        (Written.leaves (answer_of result) destination.new) }
{
    Answer::from(writer::write(bytes, destination)).into()
}

// A word as it crosses: its characters and then zeros, one at least. `struct station_word` of include/station.h has it so.
#[repr(C)]
#[derive(Clone, Copy)]
pub struct StationWord {
    pub text: [u8; 32],
}

// The word that the programs print for this number.
#[unsafe(no_mangle)]
pub extern "C" fn station_name(number: u32) -> StationWord
    ensures { Spells (word_of number) result }
{
    let text = answer::in_room(answer::name_of(number));
    StationWord { text }
}

// The number of a command byte's class.
#[unsafe(no_mangle)]
pub extern "C" fn station_command_class(byte: u8) -> u32
    ensures { result ≡ class_number (class_of byte) }
{
    command::class_of(byte).number()
}

// The word that the programs print for a command byte's class.
#[unsafe(no_mangle)]
pub extern "C" fn station_command_name(byte: u8) -> StationWord
    ensures { Spells (class_word (class_of byte)) result }
{
    let text = answer::in_room(command::class_of(byte).word());
    StationWord { text }
}
