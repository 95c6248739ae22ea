ghost use Rattle.std.specs.Prelude.{◌≡◌, ◌++◌, OnOk};
ghost use Rattle.tm_refusal_lines.specs.KnownNames.{IsAskedOf, IsCauseOf, IsPlaceOf};
ghost use Rattle.tm_refusal_lines.specs.RefusalTexts.{asked_text, expected_text, place_text};

use tm_base::NoMemory;
use tm_joint::{Asked, Cause};
use tm_merge::Missing;
use tm_text::Exercise;
use tm_timeline::{append_number, append_object, append_operation, append_reply, append_thread};

/// Appends what was expected in place of an illegal event. `NoMemory` only where memory runs out, as in the calls
/// below.
pub fn append_expected(
    out: &mut Vec<u8>,
    exercise: &Exercise,
    cause: &Cause,
) -> Result<(), NoMemory>
    requires known { IsCauseOf exercise.now cause.now }
    ensures { OnOk result (out.new.items ≡ out.old.items ++ expected_text exercise.now cause.now) }
{
    match cause {
        Cause::Ended | Cause::StoppedAlready => out.extend_from_slice(b"nothing")?,
        Cause::Place(next) => append_place(out, exercise, next)?,
        Cause::Stamp(next) => {
            out.extend_from_slice(b"stamp ")?;
            append_number(out, *next)?;
        }
        Cause::Waiting(object) => {
            out.extend_from_slice(b"resume ")?;
            append_object(out, exercise, *object)?;
        }
        Cause::NotAsked(next) => append_asked(out, exercise, next)?,
        Cause::Reply(reply) => {
            out.extend_from_slice(b"reply ")?;
            append_reply(out, exercise, *reply)?;
        }
    }
    Ok(())
}

/// Appends a place in a thread or at an object.
pub fn append_place(out: &mut Vec<u8>, exercise: &Exercise, place: &Missing) -> Result<(), NoMemory>
    requires known { IsPlaceOf exercise.now place.now }
    ensures { OnOk result (out.new.items ≡ out.old.items ++ place_text exercise.now place.now) }
{
    match place {
        Missing::Thread { thread, place } => {
            out.extend_from_slice(b"thread ")?;
            append_thread(out, exercise, *thread)?;
            out.extend_from_slice(b".")?;
            append_number(out, *place)
        }
        Missing::Object { object, at } => {
            out.extend_from_slice(b"object ")?;
            append_object(out, exercise, *object)?;
            out.extend_from_slice(b".")?;
            append_number(out, *at)
        }
    }
}

/// Appends what a thread may do.
fn append_asked(out: &mut Vec<u8>, exercise: &Exercise, asked: &Asked) -> Result<(), NoMemory>
    requires known { IsAskedOf exercise.now asked.now }
    ensures { OnOk result (out.new.items ≡ out.old.items ++ asked_text exercise.now asked.now) }
{
    match asked {
        Asked::Call { object, op } => {
            append_object(out, exercise, *object)?;
            out.extend_from_slice(b" ")?;
            append_operation(out, *op)?;
        }
        Asked::Over => out.extend_from_slice(b"end ok")?,
        Asked::Cut => out.extend_from_slice(b"end cut")?,
        Asked::Stop => out.extend_from_slice(b"stop")?,
    }
    Ok(())
}
