// Laws of the definitions, each the contract of a function that does nothing: a caller's proof gets
// them by a call.
ghost use Rattle.std.specs.Prelude.{◌≡◌, ℕ, ◌++◌, List};
ghost use Rattle.cfdp_header.specs.declared.value.Header.{Header};
ghost use Rattle.cfdp_header.specs.Header.{FitsHeader};
ghost use Rattle.cfdp_directives.specs.Pdu.Content.{Content};
ghost use Rattle.cfdp_directives.specs.Pdu.Grammar.{SpellsPdu};
ghost use Rattle.cfdp_directives.specs.Pdu.Written.{CanWrite, pdu_octets};

/// No spelling of a PDU begins another, and one spelling has one PDU.
pub fn no_pdu_begins_another()
    ensures { (a b x y : List ℕ) (h k : Header) (v w : Content) → SpellsPdu h v a →
        SpellsPdu k w b → a ++ x ≡ b ++ y
        → (a ≡ b) × (h ≡ k) × (v ≡ w) }
{}

/// What is written of a PDU spells it.
pub fn written_pdu_is_read()
    ensures { (h : Header) (v : Content) → CanWrite h v → SpellsPdu h v (pdu_octets h v) }
{}

/// The header of a PDU that was read can be written, and so can the header of a reply, which has
/// its ids, number and widths.
pub fn a_pdu_read_can_be_answered()
    ensures { (h : Header) (v : Content) (text : List ℕ) → SpellsPdu h v text → FitsHeader h }
{}
