//! Vectors of the standards.

use auc_aes::{Key, Lanes, block_at};

/// The bytes of four blocks, which the standard prints as numbers.
fn bytes_of(blocks: [u128; 4]) -> [u8; 64] {
    let mut bytes = [0; 64];
    for (i, block) in blocks.iter().enumerate() {
        bytes[16 * i..16 * i + 16].copy_from_slice(&block.to_be_bytes());
    }
    bytes
}

// FIPS 197 Appendix B and Appendix C.1: key, plaintext, ciphertext.
#[test]
fn a_block_is_encrypted_and_decrypted_as_in_the_standard(rt: HostRuntime) {
    let cases: [(u128, u128, u128); 2] = [
        (
            0x2b7e151628aed2a6abf7158809cf4f3c,
            0x3243f6a8885a308d313198a2e0370734,
            0x3925841d02dc09fbdc118597196a0b32,
        ),
        (
            0x000102030405060708090a0b0c0d0e0f,
            0x00112233445566778899aabbccddeeff,
            0x69c4e0d86a7b0430d8cdb78070b4c55a,
        ),
    ];
    for (key, plaintext, ciphertext) in cases {
        let key = Key::new(key.to_be_bytes());
        assert!(rt;
            key.encrypt(plaintext.to_be_bytes()) == ciphertext.to_be_bytes(),
            "at {plaintext}"
        );
        assert!(rt;
            key.decrypt(ciphertext.to_be_bytes()) == plaintext.to_be_bytes(),
            "at {ciphertext}"
        );
    }
}

// NIST SP 800-38A F.2.1 and F.2.2; Python's `cryptography` 48 gives the same.
#[test]
fn four_blocks_are_encrypted_and_decrypted_by_cbc_as_in_the_standard(rt: HostRuntime) {
    let key = Key::new(0x2b7e151628aed2a6abf7158809cf4f3c_u128.to_be_bytes());
    let iv = 0x000102030405060708090a0b0c0d0e0f_u128.to_be_bytes();
    let plaintext = bytes_of([
        0x6bc1bee22e409f96e93d7e117393172a,
        0xae2d8a571e03ac9c9eb76fac45af8e51,
        0x30c81c46a35ce411e5fbc1191a0a52ef,
        0xf69f2445df4f9b17ad2b417be66c3710,
    ]);
    let ciphertext = bytes_of([
        0x7649abac8119b246cee98e9b12e9197d,
        0x5086cb9b507219ee95db113a917678b2,
        0x73bed6b8e3c1743b7116e69e22229516,
        0x3ff1caa1681fac09120eca307586e1a7,
    ]);
    let mut bytes = plaintext;
    key.cbc_encrypt(iv, &mut bytes);
    assert!(rt; bytes == ciphertext);
    key.cbc_decrypt(iv, &mut bytes);
    assert!(rt; bytes == plaintext);
}

// The first key and block of FIPS 197 Appendix C.1, in as many copies.
#[test]
fn many_blocks_are_encrypted_and_decrypted_as_one_is(rt: HostRuntime) {
    let key = Key::new(0x000102030405060708090a0b0c0d0e0f_u128.to_be_bytes());
    let plaintext = 0x00112233445566778899aabbccddeeff_u128.to_be_bytes();
    let ciphertext = 0x69c4e0d86a7b0430d8cdb78070b4c55a_u128.to_be_bytes();
    for count in [0, 1, 16, 17, 33] {
        let mut blocks = [plaintext; 33];
        key.encrypt_many(&mut blocks[..count]);
        let mut expected = [plaintext; 33];
        expected[..count].fill(ciphertext);
        assert!(rt; blocks == expected, "{count} encrypted");
        key.decrypt_many(&mut blocks[..count]);
        assert!(rt; blocks == [plaintext; 33], "{count} decrypted");
    }
}

// NIST SP 800-38A F.1.1 and F.1.2, its four blocks in turn.
#[test]
fn different_blocks_of_one_call_are_each_encrypted_as_in_the_standard(rt: HostRuntime) {
    let key = 0x2b7e151628aed2a6abf7158809cf4f3c_u128.to_be_bytes();
    let cases: [(u128, u128); 4] = [
        (
            0x6bc1bee22e409f96e93d7e117393172a,
            0x3ad77bb40d7a3660a89ecaf32466ef97,
        ),
        (
            0xae2d8a571e03ac9c9eb76fac45af8e51,
            0xf5d3d58503b9699de785895a96fdbaaf,
        ),
        (
            0x30c81c46a35ce411e5fbc1191a0a52ef,
            0x43b1cd7f598ece23881b00e3ed030688,
        ),
        (
            0xf69f2445df4f9b17ad2b417be66c3710,
            0x7b0c785e27e8ad3f8223207104725dd4,
        ),
    ];
    let mut plaintexts = [[0; 16]; 11];
    let mut ciphertexts = [[0; 16]; 11];
    for i in 0..11 {
        let (plaintext, ciphertext) = cases[i % 4];
        plaintexts[i] = plaintext.to_be_bytes();
        ciphertexts[i] = ciphertext.to_be_bytes();
    }
    let mut blocks = plaintexts;
    Key::new(key).encrypt_many(&mut blocks);
    assert!(rt; blocks == ciphertexts);
    Key::new(key).decrypt_many(&mut blocks);
    assert!(rt; blocks == plaintexts);
    Lanes::new(Key::new(key)).encrypt_many(&mut blocks);
    assert!(rt; blocks == ciphertexts, "with the lanes kept");
}

// By Python's `cryptography` 48: the last ciphertext block of 33 blocks of zeros.
#[test]
fn a_string_of_33_blocks_is_encrypted_and_decrypted_by_cbc(rt: HostRuntime) {
    let key = Key::new(0x2b7e151628aed2a6abf7158809cf4f3c_u128.to_be_bytes());
    let iv = 0x000102030405060708090a0b0c0d0e0f_u128.to_be_bytes();
    let last = 0x7ec2d34211ef3031c88c87ffa145ea99_u128.to_be_bytes();
    let mut bytes = [0; 528];
    key.cbc_encrypt(iv, &mut bytes);
    assert!(rt; block_at(&bytes, 512) == last);
    key.cbc_decrypt(iv, &mut bytes);
    assert!(rt; bytes == [0; 528]);
}
