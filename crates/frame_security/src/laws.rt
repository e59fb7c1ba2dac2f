//! Laws of secured frames, each the contract of a function without a body.
ghost use Rattle.std.specs.Prelude.{◌≡◌, ◌≢◌, ℕ, ◌^◌, ◌<◌, ◌≤◌, List, ◌∷◌, ◌++◌, Some, None, length};
ghost use Rattle.aos_frame.specs.LinkFields.{bare_in};
ghost use Rattle.frame_security.specs.Frames.{IsSecurity, frame_in, number_in};
ghost use Rattle.frame_security.specs.Sealing.{SealerState, secured_frame};
ghost use Rattle.frame_security.specs.Opening.{OpenerState, key_of, refusal};
ghost use Rattle.frame_security.specs.Lives.{AreSomeOf, NoneForged, Opening, OpenersGoOn, Sealing};
ghost use Rattle.frame_security.specs.Lives.{SealersGoOn, after_all, all_frames, all_given, all_sealed, given};

/// What is sealed is opened again, if the opener has the key of the SPI and its last sequence
/// number is less than the frame's: the bare frame comes out, whatever its octets and the
/// operational control field are.
pub fn what_is_sealed_is_opened()
    ensures { (s : SealerState) (o : OpenerState) (bare : List ℕ) (control : ℕ) →
        IsSecurity s.security → o.security ≡ s.security → s.spi < 2 ^ 16 → s.next < 2 ^ 64 →
        key_of o s.spi ≡ Some s.key → o.last < s.next → 6 ≤ length bare → control < 2 ^ 32 →
        let frame = secured_frame s bare control in
        (refusal o frame ≡ None)
        × (frame_in o.security (bare_in o.security.fields frame) ≡ bare)
        × (number_in (bare_in o.security.fields frame) ≡ s.next) }
{}

/// **Only what was sealed is accepted, in the same order, and nothing twice.** Over all lives of
/// those who seal under the keys and of those who open, the accepted frames are some of the sealed
/// frames, in the order in which these were sealed. This holds for any octets that arrive: late,
/// repeated, altered, invented, or out of order. The only premise on them is that none was forged
/// (`NoneForged`). The premises on the two ends are about restarts: sequence numbers go on
/// (`SealersGoOn`, `OpenersGoOn`).
pub fn only_what_was_sealed_is_taken()
    ensures { (sealers : List Sealing) (openers : List Opening) → SealersGoOn 1 sealers →
        OpenersGoOn 0 openers → NoneForged (all_sealed sealers) openers →
        AreSomeOf (all_frames sealers) (all_given openers) }
{}

/// Refused octets change nothing but a count: of all other octets the same frames are accepted as
/// if the refused ones had never arrived, wherever among them they arrived.
pub fn refused_octets_change_nothing()
    ensures { (o : OpenerState) (before behind : List (List ℕ)) (frame : List ℕ) →
        refusal (after_all o before) frame ≢ None →
        given o (before ++ frame ∷ behind) ≡ given o (before ++ behind) }
{}
