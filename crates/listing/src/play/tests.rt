use super::{Player, play};
use std::test::Fail;

// A file without commands, and one that is too short.
#[test]
fn plays_files(rt: HostRuntime) -> Result<(), Fail> {
    let listing = play(rt.alloc(), b"TTS\x01\x00\x03\x00\x00")?;
    assert_eq!(rt; listing.as_slice(), b"sum 0 0 0\n".as_slice());
    let refused = play(rt.alloc(), b"TTS")?;
    assert_eq!(rt; refused.as_slice(), b"refused 10 0\n".as_slice());
    Ok(())
}

// A file after a longer one, in the same memory.
#[test]
fn plays_one_after_the_other(rt: HostRuntime) -> Result<(), Fail> {
    let mut player = Player::new(rt.alloc())?;
    assert_eq!(rt; player.play(b"TTS"), b"refused 10 0\n".as_slice());
    let file = b"TTS\x01\x00\x03\x00\x00";
    assert_eq!(rt; player.play(file), b"sum 0 0 0\n".as_slice());
    Ok(())
}
