//! Laws over every field and every text, which make no call.
ghost use Rattle.std.specs.Prelude.{◌≡◌, ◌<◌, ◌≤◌, ◌^◌, ℕ, List, [], ◌∷◌, ◌++◌, length, Some, Ok, Err};
ghost use Rattle.proto_wire.specs.declared.fault.WireFault.{WireFault};
ghost use Rattle.proto_wire.specs.Text.{IsFieldNumber, varint_field, fixed32_field, bytes_field, message_field};
ghost use Rattle.proto_wire.specs.Frame.{frame_text, frame_at};
ghost use Rattle.proto_wire.specs.Field.{ValueText, Varint, Bytes, Fixed32, FieldText, IsField, field_at, with_first, fields_of};

/// What a writer adds is the text of its field.
pub fn words_are_fields()
    ensures varint { (number value : ℕ) → IsFieldNumber number → 0 < value → value < 2 ^ 64
        → IsField (varint_field number value) number (Varint value) }
    ensures fixed32 { (number value : ℕ) → IsFieldNumber number → 0 < value → value < 2 ^ 32
        → IsField (fixed32_field number value) number (Fixed32 value) }
    ensures bytes { (number : ℕ) (bytes : List ℕ) → IsFieldNumber number → 0 < length bytes → length bytes < 2 ^ 64
        → IsField (bytes_field number bytes) number (Bytes bytes) }
    ensures message { (number : ℕ) (bytes : List ℕ) → IsFieldNumber number → length bytes < 2 ^ 64
        → IsField (message_field number bytes) number (Bytes bytes) }
{}

/// The text of a field is read as that field, whatever follows it.
pub fn fields_are_read()
    ensures { (text rest : List ℕ) (number : ℕ) (value : ValueText) → IsField text number value
        → field_at (text ++ rest) ≡ Ok (record { number = number; value = value }, rest) }
{}

/// No field's text begins another's.
pub fn no_field_begins_another()
    ensures { (a b x y : List ℕ) (m n : ℕ) (u v : ValueText) → IsField a m u → IsField b n v → a ++ x ≡ b ++ y
        → (a ≡ b) × (m ≡ n) × (u ≡ v) }
{}

/// All fields of a text are its first and those behind it, and its first fault is that of all.
pub fn fields_follow()
    ensures none { fields_of [] ≡ Ok [] }
    ensures first { (bytes rest : List ℕ) (field : FieldText) → field_at bytes ≡ Ok (field, rest)
        → fields_of bytes ≡ with_first field (fields_of rest) }
    ensures fault { (bytes : List ℕ) (fault : WireFault) → 0 < length bytes → field_at bytes ≡ Err fault
        → fields_of bytes ≡ Err fault }
    ensures written { (text rest : List ℕ) (number : ℕ) (value : ValueText) → IsField text number value
        → fields_of (text ++ rest) ≡ with_first (record { number = number; value = value }) (fields_of rest) }
{}

/// A frame is read back, whatever follows it, within a limit that its payload keeps to.
pub fn frames_are_read()
    ensures { (payload rest : List ℕ) (limit : ℕ) → length payload ≤ limit → length payload < 2 ^ 32
        → frame_at limit (frame_text payload ++ rest) ≡ Ok (Some payload) }
{}

/// No frame begins another.
pub fn no_frame_begins_another()
    ensures { (a b x y : List ℕ) → length a < 2 ^ 32 → length b < 2 ^ 32 → frame_text a ++ x ≡ frame_text b ++ y → a ≡ b }
{}
