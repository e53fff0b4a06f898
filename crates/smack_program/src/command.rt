ghost use Rattle.std.specs.Prelude.{◌≡◌, ◌↔◌, map, string_bytes, IsTrue};
ghost use Rattle.smack_program.specs.Replay.{AreReplay};
ghost use Rattle.smack_program.specs.Run.{AreRun};

/// Whether the words of the command line are those of `replay`.
pub fn is_replay(words: &[String]) -> bool
    ensures { IsTrue result ↔ AreReplay (map string_bytes words.now) }
{
    match words {
        [word] => word.as_str() == "replay",
        _ => false,
    }
}

/// Whether the words of the command line are those of `run`.
pub fn is_run(words: &[String]) -> bool
    ensures { IsTrue result ↔ AreRun (map string_bytes words.now) }
{
    match words {
        [word] => word.as_str() == "run",
        _ => false,
    }
}
