//! Laws of frames and their spellings, each the contract of a function that does nothing.
ghost use Rattle.std.specs.Prelude.{◌≡◌, ℕ, ◌+◌, ◌%◌, ◌^◌, ◌<◌, Bool, List, length};
ghost use Rattle.aos_frame.specs.LinkFields.{mpdu_in, sealed};
ghost use Rattle.aos_frame.specs.declared.header.FrameHeader.{FrameHeader};
ghost use Rattle.aos_frame.specs.declared.config.ChannelConfig.{ChannelConfig};
ghost use Rattle.aos_frame.specs.Counts.{counts_of, compared, AreMissing};
ghost use Rattle.aos_frame.specs.Frame.{SpellsFrame, FitsHeader, frame_octets};

/// What is written of a header of the channel, with an M_PDU after it, and sealed with the fields
/// of the link, spells that header: `decode` answers this header and this M_PDU.
pub fn written_frame_is_read()
    ensures { (c : ChannelConfig) (h : FrameHeader) (rest : List ℕ) (control : ℕ) → FitsHeader h
        → h.spacecraft ≡ c.spacecraft → h.virtual_channel ≡ c.virtual_channel
        → length rest ≡ 2 + c.zone → control < 2 ^ 32 →
        let frame = sealed c.fields (frame_octets h rest) control in
        SpellsFrame c h frame × (mpdu_in c.fields frame ≡ rest) }
{}

/// Octets are a frame of the channel with one header at most.
pub fn a_frame_has_one_header()
    ensures { (c : ChannelConfig) (h k : FrameHeader) (text : List ℕ) → SpellsFrame c h text →
        SpellsFrame c k text → h ≡ k }
{}

/// Between two counts exactly one number of counts is missing. If some frames of a channel in a row
/// are lost, fewer than the counts that are compared, the number is how many frames they are.
pub fn one_number_is_missing()
    ensures lost { (n lost : ℕ) (last this : Bool) → lost < compared last this →
        AreMissing (compared last this) (n % counts_of last)
        ((n + 1 + lost) % counts_of this) lost }
    ensures some { (last this : Bool) (before count : ℕ) → (n : ℕ)
        × AreMissing (compared last this) before count n }
    ensures one { (last this : Bool) (before count n m : ℕ) →
        AreMissing (compared last this) before count n →
        AreMissing (compared last this) before count m → n ≡ m }
{}
