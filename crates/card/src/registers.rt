// The registers: what a write does to them, what a read gives, and the end of a card. `made` is the number of steps made since the start.
// (That they are proper stands in the contracts and in no type: they are memory that a caller in C lends anew with each call, in the
// document's bytes, and `proper` is the test at each.)
ghost use Rattle.std.specs.Prelude.{◌≡◌, true, not, ℕ, ◌+◌, ◌*◌, eqb};
ghost use Rattle.card.specs.Card.{bit, read, command, write, ended};
ghost use Rattle.card.specs.Registers.{registers_of, card_of, proper};

// What a command does; the steps made, after it. The bytes 1 and 2 stay numbers: they are the document's register
// values, and an enum would be converted to at once and back.
fn command(registers: &mut [u8], value: u8, made: u64) -> u64
    requires { proper registers.old ≡ true }
    ensures result { result ≡ (command (card_of registers.old made) value).made }
    ensures registers { registers.new ≡ registers_of (command (card_of registers.old made) value) }
    ensures proper { proper registers.new ≡ true }
{
    if value == 1 {
        if registers[1] % 2 == 1 {
            return made;
        }
        registers[1] = 1;
        return 0;
    }
    if value == 2 {
        registers[1] = 0;
        return 0;
    }
    made
}

// What a write does; the steps made, after it.
pub fn write(registers: &mut [u8], address: u64, value: u8, made: u64) -> u64
    requires { proper registers.old ≡ true }
    ensures result { result ≡ (write (card_of registers.old made) address value).made }
    ensures registers { registers.new ≡ registers_of (write (card_of registers.old made) address value) }
    ensures proper { proper registers.new ≡ true }
{
    if address == 0 {
        return command(registers, value, made);
    }
    if address == 1 {
        return made;
    }
    if address == 2 {
        registers[2] = value;
        return made;
    }
    if address == 3 {
        if value == 1 {
            registers[3] = 0;
        }
        return made;
    }
    if address >= 516 {
        return made;
    }
    if registers[1] % 2 != 1 {
        registers[address as usize] = value;
    }
    made
}

// The status after an end: done, and refused too after a refusal.
fn ended_status(refusal: u64) -> u8
    ensures { result ≡ 2 + 4 * bit (not (eqb refusal 0)) }
{
    if refusal == 0 { 2 } else { 6 }
}

// The end of a card after this refusal.
pub fn end(registers: &mut [u8], refusal: u64, made: u64)
    requires { proper registers.old ≡ true }
    ensures registers { registers.new ≡ registers_of (ended (card_of registers.old made) refusal) }
    ensures proper { proper registers.new ≡ true }
{
    registers[1] = ended_status(refusal);
    if registers[2] % 2 == 1 {
        registers[3] = 1;
    }
}

// What a read gives: the byte at the address, since the registers lie in memory as they read.
pub fn read(registers: &[u8], address: u64) -> u8
    requires { proper registers.now ≡ true }
    ensures { (made : ℕ) → result ≡ read (card_of registers.now made) address }
{
    if address < 516 {
        return registers[address as usize];
    }
    0
}

// Whether registers are as calls leave them.
#[tactic(auto, unfolding(crate::specs::Registers::proper))]
pub fn proper(registers: &[u8]) -> bool
    ensures { result ≡ proper registers.now }
{
    registers.len() == 516
        && registers[0] == 0
        && registers[3] <= 1
        && (registers[1] <= 2 || registers[1] == 6)
}
