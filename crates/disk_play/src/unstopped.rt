//! A script by which no server stops. It has no code: the function below stands for the law that its contract states.
ghost use Rattle.disk_play.specs.Unstopped.{UnstoppedIsPlayed};

/// A script without a line by which a server stops or is started is played with servers that may stop as it is played by one thread: each event counts.
pub fn unstopped_scripts_are_played<N>()
    ensures played { UnstoppedIsPlayed N }
{}
