//! Frames that another program made, and a table of frames that were altered, repeated or held
//! back.
use crate::{FrameRefusal, NumbersSpent, Opener, Refused, Sealer, Security};
use aos_frame::FrameFields;
use hex::decode_to_slice;
use valid_config::{Config, Valid};

const KEY: &[u8] = &[
    0, 1, 2, 3, 4, 5, 6, 7, 8, 9, 10, 11, 12, 13, 14, 15, 16, 17, 18, 19, 20, 21, 22, 23, 24, 25,
    26, 27, 28, 29, 30, 31,
];

const OTHER_KEY: &[u8] = b"another key, of another length";

const SPI: u16 = 7;

const CONTROL: u32 = 0xA1B2C3D4;

/// A bare frame: a header, and an M_PDU of 20 octets.
const BARE: &[u8] = &[
    0x41, 0x42, 0, 0, 5, 0x40, 0, 7, 14, 21, 28, 35, 42, 49, 56, 63, 70, 77, 84, 91, 98, 105, 112,
    119, 126, 133,
];

/// The bare frame under number 1, on a link with these fields, as Python's `hmac` makes it.
struct Made {
    insert_zone: u8,
    control_field: bool,
    error_control: bool,
    mac_len: u8,
    octets: &'static str,
}

const MADE: [Made; 3] = [
    Made {
        insert_zone: 0,
        control_field: false,
        error_control: false,
        mac_len: 16,
        octets: "4142000005400007000000000000000100070e151c232a31383f464d545b626970777e85\
            0d34351aae8c409463f7f4ef1504d3f7",
    },
    Made {
        insert_zone: 2,
        control_field: true,
        error_control: true,
        mac_len: 16,
        octets: "41420000054000000007000000000000000100070e151c232a31383f464d545b626970777e85\
            e86bce939e8b3f4aaab819bf59e42e92a1b2c3d42af3",
    },
    Made {
        insert_zone: 0,
        control_field: false,
        error_control: true,
        mac_len: 32,
        octets: "4142000005400007000000000000000100070e151c232a31383f464d545b626970777e85\
            0d34351aae8c409463f7f4ef1504d3f740ce2d539166929bd6a4eb489b997e773c38",
    },
];

fn security(made: &Made) -> Option<Valid<Security>> {
    let fields = FrameFields {
        insert_zone: made.insert_zone,
        control_field: made.control_field,
        error_control: made.error_control,
    };
    let security = Security {
        fields,
        mac_len: made.mac_len,
    };
    security.validate().ok()
}

#[test]
fn frames_are_as_another_program_makes_them(rt: HostRuntime) {
    for made in MADE.iter() {
        let security = security(made).expect(&rt, "the configuration is valid");
        let mut sealer = Sealer::new(security, SPI, KEY, 1);
        let len = BARE.len() + sealer.overhead();
        let (mut wanted, mut frame) = ([0; 138], [0; 138]);
        assert!(rt; decode_to_slice(made.octets, &mut wanted[..len]).is_ok());
        assert!(rt; sealer.seal(BARE, CONTROL, &mut frame[..len]).is_ok());
        assert!(rt; frame == wanted);
        let mut opener = Opener::new(security, SPI, KEY, 0);
        let opened = opener
            .open(&frame[..len])
            .ok()
            .expect(&rt, "it is authentic");
        assert!(rt; opened.header == &BARE[..6]);
        assert!(rt; opened.mpdu == &BARE[6..]);
        assert!(rt; opened.control == made.control_field.then_some(CONTROL));
    }
}

/// What arrives, and what is said: which of three frames, how many of its octets, which octet is
/// altered, and the refusal. The frames have a header of 6 octets, an insert zone of 2, the SPI
/// (2), the number (8), the M_PDU (20), the MAC (16) and a control field (4).
const ARRIVALS: [(usize, usize, Option<usize>, Option<FrameRefusal>); 18] = [
    (0, 37, None, Some(FrameRefusal::Short)),
    (0, 57, None, Some(FrameRefusal::NotAuthentic)),
    (0, 58, Some(0), Some(FrameRefusal::NotAuthentic)),
    (0, 58, Some(5), Some(FrameRefusal::NotAuthentic)),
    (0, 58, Some(8), Some(FrameRefusal::UnknownSpi)),
    (0, 58, Some(9), Some(FrameRefusal::UnknownSpi)),
    (0, 58, Some(10), Some(FrameRefusal::NotAuthentic)),
    (0, 58, Some(17), Some(FrameRefusal::NotAuthentic)),
    (0, 58, Some(18), Some(FrameRefusal::NotAuthentic)),
    (0, 58, Some(37), Some(FrameRefusal::NotAuthentic)),
    (0, 58, Some(38), Some(FrameRefusal::NotAuthentic)),
    (0, 58, Some(53), Some(FrameRefusal::NotAuthentic)),
    // The insert zone and the control field aren't authenticated.
    (0, 58, Some(6), None),
    (0, 58, None, Some(FrameRefusal::Replayed)),
    (2, 58, Some(57), None),
    // It was held back until a later one had arrived.
    (1, 58, None, Some(FrameRefusal::Replayed)),
    (1, 58, Some(20), Some(FrameRefusal::NotAuthentic)),
    (2, 58, None, Some(FrameRefusal::Replayed)),
];

const LINK: Made = Made {
    insert_zone: 2,
    control_field: true,
    error_control: false,
    mac_len: 16,
    octets: "",
};

fn sealed(sealer: &mut Sealer) -> [u8; 58] {
    let mut frame = [0; 58];
    if sealer.overhead() + BARE.len() == frame.len() {
        let _ = sealer.seal(BARE, CONTROL, &mut frame);
    }
    frame
}

#[test]
fn arrivals_are_refused_by_their_first_cause(rt: HostRuntime) {
    let security = security(&LINK).expect(&rt, "the configuration is valid");
    let mut sealer = Sealer::new(security, SPI, KEY, 1);
    let frames = [
        sealed(&mut sealer),
        sealed(&mut sealer),
        sealed(&mut sealer),
    ];
    let mut opener = Opener::new(security, SPI, KEY, 0);
    for &(frame, len, altered, refusal) in ARRIVALS.iter() {
        assert!(rt; frame < 3 && len <= 58);
        let mut octets = frames[frame];
        if let Some(at) = altered {
            assert!(rt; at < 58);
            octets[at] ^= 1;
        }
        assert!(rt; opener.open(&octets[..len]).err() == refusal);
    }
    let refused = Refused {
        short: 1,
        damaged: 0,
        unknown_spi: 2,
        not_authentic: 10,
        replayed: 3,
    };
    assert!(rt; opener.refused() == refused);
    assert!(rt; opener.last() == 3);
}

#[test]
fn keys_change_and_numbers_go_on(rt: HostRuntime) {
    let security = security(&LINK).expect(&rt, "the configuration is valid");
    let mut sealer = Sealer::new(security, SPI, KEY, 1);
    let mut opener = Opener::new(security, SPI, KEY, 0);
    let former = sealed(&mut sealer);
    sealer.change_key(9, OTHER_KEY);
    let latest = sealed(&mut sealer);
    assert!(rt; opener.open(&latest).err() == Some(FrameRefusal::UnknownSpi));
    opener.add_key(9, OTHER_KEY);
    assert!(rt; opener.open(&former).is_ok());
    assert!(rt; opener.open(&latest).is_ok());
    opener.drop_former_key();
    assert!(rt; opener.open(&former).err() == Some(FrameRefusal::UnknownSpi));
    assert!(rt; sealer.next() == 3);
    let mut spent = Sealer::new(security, SPI, KEY, u64::MAX);
    assert!(rt; spent.overhead() == 32);
    let mut frame = [0; 58];
    assert!(rt; spent.seal(BARE, CONTROL, &mut frame) == Err(NumbersSpent));
}
