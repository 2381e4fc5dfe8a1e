//! Published words of the cipher, those of a seed, what is drawn from published words, and streams that start alike.

use crate::Stream;

// The published vectors of ChaCha with 8 rounds: at a key and a nonce of zeros, at a key whose first bit
// is set, and at a nonce whose first bit is set.
#[test]
fn published_words(rt: HostRuntime) {
    let mut zeros = Stream::start(0, 0);
    assert_eq!(rt; zeros.word(), 0x2fef003e);
    assert_eq!(rt; zeros.word(), 0xd6405f89);
    assert_eq!(rt; zeros.word(), 0xe8b85b7f);
    assert_eq!(rt; zeros.word(), 0xa1a5091f);
    let mut first_key_bit = Stream::start(1, 0);
    assert_eq!(rt; first_key_bit.word(), 0xa0e95ecf);
    assert_eq!(rt; first_key_bit.word(), 0x61a94a49);
    let mut first_nonce_bit = Stream::start(0, 1);
    assert_eq!(rt; first_nonce_bit.word(), 0xb34b8f2b);
    assert_eq!(rt; first_nonce_bit.word(), 0xca068379);
}

// The words of seed 7 and number 3, computed by two independent ChaCha8 that give the published vectors.
#[test]
fn words_of_seed_seven(rt: HostRuntime) {
    let mut stream = Stream::start(7, 3);
    for word in [
        2897986910, 2847227336, 2895278666, 2166813001, 3372369421, 3161318518, 381480654,
        185663351,
    ] {
        assert_eq!(rt; stream.word(), word);
    }
    for _ in 0..8 {
        let _ = stream.word();
    }
    assert_eq!(rt; stream.place(), 16);
    assert_eq!(rt; stream.word(), 3305642411);
}

#[test]
fn choices_of_published_words(rt: HostRuntime) {
    let mut stream = Stream::start(0, 0);
    assert_eq!(rt; stream.draw(256), (0x2fef003e, 0x2f));
    stream.back();
    assert_eq!(rt;
        stream.canary(),
        (0x2fef003e, 0xd6405f89, 0xd6405f89_2fef0000)
    );
    assert_eq!(rt; stream.place(), 2);
}

#[test]
fn streams_that_start_alike(rt: HostRuntime) {
    let mut stream = Stream::start(7, 3);
    assert_eq!(rt; stream.place(), 0);
    let first = stream.word();
    let (second, drawn) = stream.draw(1);
    assert_eq!(rt; drawn, 0);
    let (third, fourth, _) = stream.canary();
    assert_eq!(rt; stream.place(), 4);
    let mut alike = Stream::start(7, 3);
    assert_eq!(rt; alike.word(), first);
    assert_eq!(rt; alike.word(), second);
    assert_eq!(rt; alike.word(), third);
    assert_eq!(rt; alike.word(), fourth);
}
