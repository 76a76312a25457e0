//! Laws over every list of calls, which make none.
ghost use Rattle.std.specs.Prelude.{◌<◌, ◌^◌, List, length, Ok};
ghost use Rattle.master.specs.declared.master.Master.{Master};
ghost use Rattle.master.specs.declared.heartbeat.Heartbeat.{Heartbeat};
ghost use Rattle.master.specs.HeartbeatReading.{ReadsHeartbeat};
ghost use Rattle.master.specs.HeartbeatWriting.{heartbeat_text};
ghost use Rattle.master.specs.ReadBack.{FitsHeartbeat};
ghost use Rattle.master.specs.Runs.{Turn, IsRun, KeysRise, NumbersRise};

/// One master gives no key twice: each key that it gives is greater than every key given or told before, whatever
/// comes between.
pub fn keys_rise()
    ensures { (start end : Master) (turns : List Turn) → IsRun start turns end → KeysRise turns }
{}

/// One master gives no volume's number twice: each is greater than every number given or told before, also of nodes
/// that left.
pub fn numbers_rise()
    ensures { (start end : Master) (turns : List Turn) → IsRun start turns end → NumbersRise turns }
{}

/// The text of a heartbeat that memory can hold is read as that heartbeat.
pub fn heartbeats_are_read_back()
    ensures { (beat : Heartbeat) → FitsHeartbeat beat → length (heartbeat_text beat) < 2 ^ 64
        → ReadsHeartbeat (heartbeat_text beat) (Ok beat) }
{}
