//! Values from another implementation.

use auc_random::Rands;

/// The key of the 32 bytes from 0 to 31.
fn rands() -> Rands {
    Rands::new([
        0, 1, 2, 3, 4, 5, 6, 7, 8, 9, 10, 11, 12, 13, 14, 15, 16, 17, 18, 19, 20, 21, 22, 23, 24,
        25, 26, 27, 28, 29, 30, 31,
    ])
}

// The key stream of Python's `cryptography` 48 (ChaCha20 with a counter of 64 bits, and the stream as its nonce),
// bytes 16 n to 16 n + 15: subscriber, number, RAND.
#[test]
fn rand_is_the_key_stream_of_the_subscriber_at_the_number(rt: HostRuntime) {
    let cases: [(u32, u64, u128); 4] = [
        (0, 0, 0x39fd2b7dd9c5196a8dbd0377b8dc4a49),
        (0, 1, 0x8a35d86fbcde6accb2cc7d4cd8ea2492),
        (1, 1, 0x71c65f21ef9eee784c3f2d89061ae895),
        (65535, 8796093022207, 0x6d4617702b535d0f2fc4026cea4b9f51),
    ];
    let rands = rands();
    for (sub, n, rand) in cases {
        assert!(rt;
            rands.rand_of(sub, n) == rand.to_be_bytes(),
            "of {sub} at {n}"
        );
    }
}

// The same key stream, of subscriber 7: number, RAND. The generator steps on, jumps ahead, jumps back and repeats.
#[test]
fn stream_gives_the_rand_of_each_number_in_any_order(rt: HostRuntime) {
    let cases: [(u64, u128); 10] = [
        (1, 0x147f999fdb769ab661f0eb73b36ce7c8),
        (2, 0xed24fee9481eb65eba4b4df7f80b0121),
        (16, 0x626ca442b43ecc6f38c5e29602ec81a8),
        (17, 0xbc4058178341013f197f505f0fe31d32),
        (5, 0x329da241f1ed0905aa9a33e7e7e9d71c),
        (4, 0xf10f844822e87a8962364e33fc88109a),
        (15, 0x77b349ce2ad80b2642be1c010b19b428),
        (16, 0x626ca442b43ecc6f38c5e29602ec81a8),
        (8796093022207, 0x89fe4fe7970f7f4d0dffe0de36f144cf),
        (0, 0x480f443fe9dbb832560a751a4ff29af7),
    ];
    let mut stream = rands().stream(7);
    for (n, rand) in cases {
        assert!(rt; stream.rand_of(n) == rand.to_be_bytes(), "at {n}");
    }
}

// The same key stream, of stream 2^32 + session, bytes 16 k to 16 k + 15: session, index, bytes.
#[test]
fn nonce_is_the_key_stream_of_the_session_at_the_index(rt: HostRuntime) {
    let cases: [(u32, u32, u128); 4] = [
        (0, 0, 0x2e180680f4d93645d1b9381fc0b02e6f),
        (1, 1, 0xfb6e95d8ded7bed96357647483fecd0a),
        (999999, 2, 0x5a575af93e8723f272d1b354057049d2),
        (7, 4294967295, 0xbf8287b523dde719c1448db94d446c2c),
    ];
    let rands = rands();
    for (session, k, nonce) in cases {
        assert!(rt;
            rands.nonce_of(session, k) == nonce.to_be_bytes(),
            "{session} at {k}"
        );
    }
}
