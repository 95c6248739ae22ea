ghost use Rattle.std.specs.Prelude.{◌≡◌, ◌++◌, pos, true, OnOk};
ghost use Rattle.std.specs.Fmt.{signed_decimal};
ghost use Rattle.tm_lines.specs.Numerals.{sign_of};
ghost use Rattle.tm_text.specs.CanonicalTexts.{is_long, value_word, values_text};
ghost use Rattle.tm_text.specs.declared.values.Value.TheVariants.{Number, Register};

use std::alloc::Global;
use tm_base::{Name, NoMemory};
use tm_programs::Comparison;

/// What a word of a line says that stands after the first.
#[derive(Clone, Copy, Debug)]
pub enum Value {
    /// The name of an object.
    Name(Name),
    Number(i64),
    /// A register, 0 to 7.
    Register(u8),
    Comparison(Comparison),
    Hoare,
    Mesa,
    Held,
}

/// The value that is this number.
pub fn integer(number: i64) -> Value
    ensures value { result ≡ Number number }
    ensures long { is_long result ≡ true }
{
    Value::Number(number)
}

/// The value that is this number.
pub fn natural(number: u32) -> Value
    ensures value { result ≡ Number (pos number) }
    ensures long { is_long result ≡ true }
{
    integer(i64::from(number))
}

/// Appends the words that say the values, each after a space.
pub fn push_values(alloc: Global, out: &mut Vec<u8>, values: &[Value]) -> Result<(), NoMemory>
    ensures { OnOk result (out.new.items ≡ out.old.items ++ values_text values.now) }
{
    for value in values {
        out.extend_from_slice(b" ")?;
        push_value(alloc, out, *value)?;
    }
    Ok(())
}

/// Appends the word that says the value.
fn push_value(alloc: Global, out: &mut Vec<u8>, value: Value) -> Result<(), NoMemory>
    ensures { OnOk result (out.new.items ≡ out.old.items ++ value_word value) }
{
    match value {
        Value::Name(name) => push_bytes(out, name.bytes()),
        Value::Number(number) => push_number(alloc, out, number),
        Value::Register(register) => push_register(alloc, out, register),
        Value::Comparison(comparison) => push_bytes(out, sign(comparison)),
        Value::Hoare => push_bytes(out, b"hoare"),
        Value::Mesa => push_bytes(out, b"mesa"),
        Value::Held => push_bytes(out, b"held"),
    }
}

/// Appends the bytes.
fn push_bytes(out: &mut Vec<u8>, bytes: &[u8]) -> Result<(), NoMemory>
    ensures { OnOk result (out.new.items ≡ out.old.items ++ bytes.now) }
{
    out.extend_from_slice(bytes)?;
    Ok(())
}

/// Appends the number in decimal, a minus sign in front of a negative one.
fn push_number(alloc: Global, out: &mut Vec<u8>, number: i64) -> Result<(), NoMemory>
    ensures { OnOk result (out.new.items ≡ out.old.items ++ signed_decimal number) }
{
    let digits = number.to_string(alloc)?;
    out.extend_from_slice(digits.as_bytes())?;
    Ok(())
}

/// Appends the register.
fn push_register(alloc: Global, out: &mut Vec<u8>, register: u8) -> Result<(), NoMemory>
    ensures { OnOk result (out.new.items ≡ out.old.items ++ value_word (Register register)) }
{
    let digits = register.to_string(alloc)?;
    out.extend_from_slice(b"r")?;
    out.extend_from_slice(digits.as_bytes())?;
    Ok(())
}

/// The sign of the comparison.
fn sign(comparison: Comparison) -> &'static [u8]
    ensures { result.now ≡ sign_of comparison }
{
    match comparison {
        Comparison::Equal => b"=",
        Comparison::NotEqual => b"!=",
        Comparison::Less => b"<",
        Comparison::AtMost => b"<=",
        Comparison::Greater => b">",
        Comparison::AtLeast => b">=",
    }
}
