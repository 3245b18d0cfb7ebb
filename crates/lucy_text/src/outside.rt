ghost use Rattle.std.specs.Prelude.{◌≡◌, ◌<◌, ◌≤◌, [], length, take, is_err};
ghost use Rattle.std.specs.Prelude.{IsTrue, IfOk, OnOk, OnErr};
ghost use Rattle.std.specs.Option.{option_map};
ghost use Rattle.lucy_text.specs.Outside.{SeenSource, SeenSink, appended, GaveBytes, HasEnded, HasCause, Writes, Fails};
ghost use Rattle.lucy_text.specs.Outside.{gives_nothing, after_call};

/// A read or a write failed, and its source or sink counted a fault.
#[derive(Clone, Copy)]
pub struct Failed;

/// Where bytes come from.
pub trait Source {
    /// What contracts see of the source. A count at the greatest u64 stays there. A source never leaves
    /// its end, which one in memory has met once nothing is left, and one over a reader once a read gave 0.
    ghost seen: { Self → SeenSource };

    /// Puts the next bytes at the front of `into` and gives their number, 0 at the end alone.
    /// It may give fewer than `into` holds. What it does to the rest of `into` is left open.
    fn read(&mut self, into: &mut [u8]) -> Result<usize, Failed>
        requires { 0 < length into.old }
        ensures within { IfOk result (λ n. n ≤ length into.old) }
        ensures bytes { IfOk result (λ n. GaveBytes (seen self.old) (seen self.new) (take n into.new)) }
        ensures ends { IfOk result (λ n. n ≡ 0 → HasEnded (seen self.new)) }
        ensures stays_ended { IsTrue (seen self.old).ended → IsTrue (seen self.new).ended }
        ensures gives_no_more { IsTrue (seen self.old).ended → IfOk result (λ n. n ≡ 0) }
        ensures err { OnErr result ((seen self.new).left ≡ (seen self.old).left) }
        ensures counted { (seen self.new).since_stop ≡ option_map (after_call (gives_nothing result)) (seen self.old).since_stop }
        ensures cause { HasCause (seen self.old).faults (seen self.new).faults result };
}

/// Where bytes go.
pub trait Sink {
    /// What contracts see of the sink. A count at the greatest u64 stays there.
    ghost seen: { Self → SeenSink };

    /// Takes bytes from the front of `from`, at least one, and gives their number.
    fn write(&mut self, from: &[u8]) -> Result<usize, Failed>
        requires { 0 < length from.now }
        ensures some { IfOk result (λ n. 0 < n) }
        ensures within { IfOk result (λ n. n ≤ length from.now) }
        ensures bytes { IfOk result (λ n. (seen self.new).written ≡ appended (seen self.old).written (take n from.now)) }
        ensures err { OnErr result ((seen self.new).written ≡ (seen self.old).written) }
        ensures counted { (seen self.new).since_stop ≡ option_map (after_call (is_err result)) (seen self.old).since_stop }
        ensures cause { HasCause (seen self.old).faults (seen self.new).faults result };
}

/// Writes all the bytes, in as many calls as the sink needs, and in none where there are no bytes. No
/// call follows one that failed.
pub fn write_all<K: Sink>(sink: &mut K, bytes: &[u8]) -> Result<(), Failed>
    ensures ok { OnOk result (Writes (K.seen sink.old) (K.seen sink.new) bytes.now) }
    ensures failed { OnErr result (Fails (K.seen sink.old) (K.seen sink.new) bytes.now) }
    ensures count { (K.seen sink.old).faults ≤ (K.seen sink.new).faults }
    ensures untouched { bytes.now ≡ [] → sink.new ≡ sink.old }
{
    let mut done = 0usize;
    while done < bytes.len() {
        done += sink.write(&bytes[done..])?;
    }
    Ok(())
}
