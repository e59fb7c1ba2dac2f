//! The test cases of RFC 4231, section 4, as a table.
use crate::{Key, MAC_LEN, are_same};
use hex::decode_to_slice;

/// A test case: a key, a message, and the front of its MAC in hexadecimal digits.
struct Case {
    key: &'static [u8],
    message: &'static [u8],
    mac: &'static str,
}

const CASES: [Case; 7] = [
    Case {
        key: &[0x0B; 20],
        message: b"Hi There",
        mac: "b0344c61d8db38535ca8afceaf0bf12b881dc200c9833da726e9376c2e32cff7",
    },
    Case {
        key: b"Jefe",
        message: b"what do ya want for nothing?",
        mac: "5bdcc146bf60754e6a042426089575c75a003f089d2739839dec58b964ec3843",
    },
    Case {
        key: &[0xAA; 20],
        message: &[0xDD; 50],
        mac: "773ea91e36800e46854db8ebd09181a72959098b3ef8c122d9635514ced565fe",
    },
    Case {
        key: &[
            1, 2, 3, 4, 5, 6, 7, 8, 9, 10, 11, 12, 13, 14, 15, 16, 17, 18, 19, 20, 21, 22, 23, 24,
            25,
        ],
        message: &[0xCD; 50],
        mac: "82558a389a443c0ea4cc819899f2083a85f0faa3e578f8077a2e3ff46729665b",
    },
    Case {
        key: &[0x0C; 20],
        message: b"Test With Truncation",
        mac: "a3b6167473100ee06e0c796c2955552b",
    },
    Case {
        key: &[0xAA; 131],
        message: b"Test Using Larger Than Block-Size Key - Hash Key First",
        mac: "60e431591ee0b67f0d8a26aacbf5b77f8e0bc6213728c5140546040f0ee37f54",
    },
    Case {
        key: &[0xAA; 131],
        message: b"This is a test using a larger than block-size key and a larger \
            than block-size data. The key needs to be hashed before being used by \
            the HMAC algorithm.",
        mac: "9b09ffa71b942fcb27635fbcd5b0e944bfdc63644f0713938a7f51535c3a35e2",
    },
];

/// Returns the MAC of a message that is given in two parts.
fn mac_of_parts(key: &[u8], front: &[u8], rest: &[u8]) -> [u8; 32] {
    let mut mac = Key::new(key).begin();
    mac.update(front);
    mac.update(rest);
    mac.finish()
}

#[test]
fn rfc_4231_has_these_macs(rt: HostRuntime) {
    for case in CASES.iter() {
        let (front, rest) = case.message.split_at(case.message.len() / 3);
        let made = mac_of_parts(case.key, front, rest);
        let mut wanted = [0; MAC_LEN];
        let len = case.mac.len() / 2;
        assert!(rt; len <= MAC_LEN);
        assert!(rt; decode_to_slice(case.mac, &mut wanted[..len]).is_ok());
        assert!(rt; are_same(&made[..len], &wanted[..len]));
        assert!(rt; made == mac_of_parts(case.key, case.message, b""));
        let other = mac_of_parts(case.message, front, rest);
        assert!(rt; !are_same(&other[..len], &wanted[..len]));
    }
}
