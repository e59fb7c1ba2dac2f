//! Laws of frames and their fields, each the contract of a function that does nothing.
ghost use Rattle.std.specs.Prelude.{◌≡◌, ℕ, ◌^◌, ◌<◌, ◌≤◌, true, if◌then◌else◌, List, Some, None};
ghost use Rattle.std.specs.Prelude.{length, take, drop, replicate};
ghost use Rattle.crc.specs.Damage.{IsDamaged};
ghost use Rattle.aos_frame.specs.declared.fields.FrameFields.{FrameFields};
ghost use Rattle.aos_frame.specs.declared.opening.FieldsFault.TheVariants.{Damaged};
ghost use Rattle.aos_frame.specs.LinkFields.{control_in, fields_fault, insert_in, mpdu_in};
ghost use Rattle.aos_frame.specs.LinkFields.{no_fields, sealed};

/// What is sealed is opened again: it has no fault, and its parts are the parts of the bare frame,
/// with zeros as the insert zone, and the operational control field that was sent.
pub fn what_is_sealed_is_opened()
    ensures { (fields : FrameFields) (bare : List ℕ) (control : ℕ) → 6 ≤ length bare →
        control < 2 ^ 32 → let frame = sealed fields bare control in
        (fields_fault fields frame ≡ None) × (take 6 frame ≡ take 6 bare)
        × (insert_in fields frame ≡ replicate fields.insert_zone 0)
        × (mpdu_in fields frame ≡ drop 6 bare)
        × (control_in fields frame ≡ (if fields.control_field then Some control else None)) }
{}

/// If a link has none of these fields, what is sealed is the bare frame, octet by octet, and any
/// octets with a whole header can be opened.
pub fn without_fields_a_frame_is_bare()
    ensures sent { (bare : List ℕ) (control : ℕ) → sealed no_fields bare control ≡ bare }
    ensures taken { (frame : List ℕ) → 6 ≤ length frame →
        (fields_fault no_fields frame ≡ None) × (mpdu_in no_fields frame ≡ drop 6 frame) }
{}

/// A frame with error control of up to 2,048 octets is refused as damaged if one, two or three of
/// its bits were turned, or any bits within 16 in a row.
pub fn damage_is_seen()
    ensures { (fields : FrameFields) (sent came : List ℕ) → fields.error_control ≡ true →
        fields_fault fields sent ≡ None → length sent ≤ 2048 → IsDamaged sent came →
        fields_fault fields came ≡ Some Damaged }
{}
