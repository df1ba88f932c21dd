//! That it doesn't matter in which pieces a stream comes.

ghost use Rattle.std.specs.Prelude.{◌≡◌, ℕ, [], List};
ghost use Rattle.fw_link.specs.Envelopes.{envelope_spelling, IsEnvelope};
ghost use Rattle.fw_link.specs.Streams.{IsOne, Splits, CutsParts, joined_bytes};

/// The law of cutting, which says that what a cutter hands out follows from the bytes alone. It does nothing.
pub fn cut_in_any_pieces()
    // The envelopes that a cutter hands out, whatever parts it takes, are those of the stream.
    ensures splits { (parts envelopes : List (List ℕ)) (rest : List ℕ) →
        CutsParts [] parts envelopes rest → Splits (joined_bytes parts) envelopes rest }
    // A stream has no others.
    ensures only { (stream : List ℕ) (envelopes others : List (List ℕ)) (rest left : List ℕ) →
        Splits stream envelopes rest → Splits stream others left → (envelopes ≡ others) × (rest ≡ left) }
    // What `put_envelope` writes is one whole envelope.
    ensures spelled { (kind copy : ℕ) (frame : List ℕ) →
        IsEnvelope kind copy frame → IsOne (envelope_spelling kind copy frame) }
{}
