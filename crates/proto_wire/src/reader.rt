ghost use Rattle.std.specs.Prelude.{◌≡◌, ◌<◌, ◌↔◌, List, [], ◌++◌, ℕ, None, Some, IfOk, IfErr, IfSome, OnSome, option_map};
ghost use Rattle.proto_wire.specs.declared.fault.WireFault.{WireFault};
ghost use Rattle.proto_wire.specs.Field.{FieldText, field_text, IsField};
ghost use Rattle.proto_wire.specs.Reading.{Gives, next_of, left_after, bytes_left, fields_left, TakesFirst, Passes, HasFault, AreBytes};

use crate::fault::WireFault;
use crate::field::Field;
use crate::scan::field_of;
use std::marker::Model;

/// Reads the fields of a text, one after another. It is seen as the bytes left, or as the fault that every
/// further call answers.
#[derive(Debug, Drop)]
pub struct Reader<'a> {
    left: Result<&'a [u8], WireFault>,
}

impl<'a> Model for Reader<'a> {
    ghost use Rattle.std.specs.Prelude.{List, ℕ, Result};
    ghost use Rattle.std.specs.Result.{result_map_both};
    ghost use Rattle.proto_wire.specs.declared.fault.WireFault.{WireFault};

    ghost Value = { Result (List ℕ) WireFault };

    ghost view = { λ reader. result_map_both (λ bytes. bytes.now) (λ fault. fault) reader.left };
}

impl<'a> Reader<'a> {
    /// A reader of the fields of this text. Takes no memory.
    pub fn new(text: &'a [u8]) -> Reader<'a>
        ensures { result ≡ Ok text.now }
    {
        Reader { left: Ok(text) }
    }

    /// The next field. `None` comes exactly at the end, and after an `Err` every call answers the same. Takes
    /// no memory.
    pub fn next(&mut self) -> Result<Option<Field<'a>>, WireFault>
        // As reading from the left gives it.
        ensures answer { Gives (option_map field_text) result (next_of self.old) }
        ensures left { self.new ≡ left_after self.old }

        // It takes the first of the fields that are left.
        ensures first { TakesFirst result (fields_left self.old) (fields_left self.new) }
        ensures shorter { IfOk result (λ next. OnSome next (bytes_left self.new < bytes_left self.old)) }

        // The same by the grammar.
        ensures end { (result ≡ Ok None) ↔ (self.old ≡ Ok []) }
        ensures found { IfOk result (λ next. IfSome next (λ field. Passes self.old self.new (field_text field))) }
        ensures only { (text rest : List ℕ) (field : FieldText) → IsField text field.number field.value → self.old ≡ Ok (text ++ rest)
            → Gives (option_map field_text) result (Ok (Some field)) × (self.new ≡ Ok rest) }
        ensures refused { (fault : WireFault) → (result ≡ Err fault) ↔ HasFault self.old fault }
        ensures failed { IfErr result (λ fault. self.new ≡ Err fault) }
    {
        self.step()
    }

    fn step(&mut self) -> Result<Option<Field<'a>>, WireFault>
        ensures answer { Gives (option_map field_text) result (next_of self.old) }
        ensures left { self.new ≡ left_after self.old }
        ensures bytes { AreBytes self.old }
    {
        let text = self.left?;
        if text.is_empty() {
            return Ok(None);
        }
        match field_of(text) {
            Ok((field, rest)) => {
                self.left = Ok(rest);
                Ok(Some(field))
            }
            Err(fault) => {
                self.left = Err(fault);
                Err(fault)
            }
        }
    }
}
