// The profiles, question by question: which family, which numbers, what is admitted. Each function is a table, a branch for each answer, and its promise is
// arithmetic: what is proved of a further profile of carriers needs its lines here and in specs/Profiles.antt, which says how far, and no others.
// (Tests in a row, and no match on the number: with matches a walk of profile 1 took some 40 instructions a call more.)
ghost use Rattle.profiles.specs.Entered.{FamilyEntered, NumbersEntered, AdmittedEntered};

use super::{Admitted, Bits, Family, Form, Numbers};

// The profiles are numbered from 1 to this. A number below 1 is answered as 1 is, and one above this as 7 is (`entry_by` in
// specs/Profiles.antt).
pub(super) const LAST: u32 = 9;

// Which family: 1 to 4 are carrier interleavers, 5 (3GPP TS 25.212) is the turbo interleaver, 6 and 7 (IEEE 802.11n) are of spatial streams, 8 (3GPP
// TS 36.212) is the quadratic interleaver, 9 (IEEE 802.16) is of couples.
pub(super) fn family(profile: u32) -> Family
    ensures { FamilyEntered profile result }
{
    if profile < 5 {
        return Family::Carrier;
    }
    if profile < 6 {
        return Family::Turbo;
    }
    if profile == 8 {
        return Family::Quadratic;
    }
    if profile == 9 {
        return Family::Coupled;
    }
    Family::Spatial
}

// Which numbers.
pub(super) fn numbers(profile: u32) -> Numbers
    ensures { NumbersEntered profile result }
{
    if profile < 2 {
        return Numbers {
            d: 12,
            r: 0,
            streams: 1,
        };
    }
    if profile < 5 {
        return Numbers {
            d: 16,
            r: 0,
            streams: 1,
        };
    }
    if profile < 6 {
        return Numbers {
            d: 0,
            r: 0,
            streams: 1,
        };
    }
    if profile < 7 {
        return Numbers {
            d: 13,
            r: 11,
            streams: 4,
        };
    }
    if profile == 8 {
        return Numbers {
            d: 0,
            r: 0,
            streams: 1,
        };
    }
    if profile == 9 {
        return Numbers {
            d: 0,
            r: 0,
            streams: 1,
        };
    }
    Numbers {
        d: 18,
        r: 29,
        streams: 4,
    }
}

// What is admitted.
pub(super) fn admitted(profile: u32) -> Admitted
    ensures { AdmittedEntered profile result }
{
    if profile < 2 {
        return Admitted {
            bits: Bits::Each,
            form: Form::Doubled,
            unit: 12,
            limit: 0,
        };
    }
    if profile < 3 {
        return Admitted {
            bits: Bits::Even,
            form: Form::Multiple,
            unit: 48,
            limit: 576,
        };
    }
    if profile < 4 {
        return Admitted {
            bits: Bits::Each,
            form: Form::Only,
            unit: 48,
            limit: 0,
        };
    }
    if profile < 5 {
        return Admitted {
            bits: Bits::Each,
            form: Form::Grouped,
            unit: 16,
            limit: 1536,
        };
    }
    if profile < 6 {
        return Admitted {
            bits: Bits::One,
            form: Form::Range,
            unit: 40,
            limit: 5114,
        };
    }
    if profile < 7 {
        return Admitted {
            bits: Bits::Each,
            form: Form::Only,
            unit: 52,
            limit: 0,
        };
    }
    if profile == 8 {
        return Admitted {
            bits: Bits::One,
            form: Form::Tiered,
            unit: 40,
            limit: 6144,
        };
    }
    if profile == 9 {
        return Admitted {
            bits: Bits::One,
            form: Form::Fours,
            unit: 24,
            limit: 2400,
        };
    }
    Admitted {
        bits: Bits::Each,
        form: Form::Only,
        unit: 108,
        limit: 0,
    }
}
