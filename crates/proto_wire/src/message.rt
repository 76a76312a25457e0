ghost use Rattle.std.specs.Prelude.{◌≡◌, ◌++◌, ◌∷◌, [], List, Ok, Err, MatchResult};
ghost use Rattle.proto_wire.specs.Field.{FieldText, field_text, fields_of};

use crate::fault::WireFault;
use crate::field::Field;
use crate::reader::Reader;

/// What is taken of the fields of a text.
pub trait Message<'a> {
    /// The value is what these fields, in order, make of it.
    ghost IsOf: { List FieldText → Self → Type 0 };

    /// Of no field. Takes no memory.
    fn empty() -> Self
        ensures { IsOf [] result };

    /// Takes one field more, or passes it over. Takes no memory.
    fn take(&mut self, field: Field<'a>)
        ensures { (before : List FieldText) → IsOf before self.old → IsOf (before ++ field_text field.entry ∷ []) self.new };
}

/// What a message takes of all fields of the text, whose first fault is answered. Takes no memory.
pub fn read_message<'a, M: Message<'a> + Drop>(text: &'a [u8]) -> Result<M, WireFault>
    ensures { MatchResult result
        (λ taken. (fields : List FieldText) × (fields_of text.now ≡ Ok fields) × M.IsOf fields taken)
        (λ fault. fields_of text.now ≡ Err fault) }
{
    let mut taken = M::empty();
    let mut reader = Reader::new(text);
    while let Some(field) = reader.next()? {
        taken.take(field);
    }
    Ok(taken)
}
