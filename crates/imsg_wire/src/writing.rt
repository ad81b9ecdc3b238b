ghost use Rattle.std.specs.Prelude.{◌≡◌, ◌≤◌, ◌++◌, length, OnOk, OnErr};
ghost use Rattle.imsg_wire.specs.Frame.{frame_bytes, Keeps};

use crate::header::{HEADER_LENGTH, header_as_bytes};
use net_base::NoMemory;
use wire_buf::Pipe;

/// Writes a frame of this kind behind what `out` holds: a header of 16 bytes, then the payload.
///
/// `peer` is the number of the session that it speaks of, or 0, and `pid` who wrote it. Where memory is
/// refused, `out` holds what it held.
pub fn frame(kind: u32, peer: u32, pid: u32, payload: &[u8], out: &mut Pipe) -> Result<(), NoMemory>
    requires { length payload.now ≤ 16368 }
    ensures ok { OnOk result (out.new ≡ out.old ++ frame_bytes (record { kind = kind; peer = peer; pid = pid; payload = payload.now })) }
    ensures err { OnErr result (out.new ≡ out.old) }
{
    let held = out.len();
    let written = put_frame(kind, peer, pid, payload, out);
    if written.is_err() {
        out.truncate(held);
    }
    written
}

#[tactic(auto, unfolding(crate::specs::Frame::frame_bytes))]
fn put_frame(kind: u32, peer: u32, pid: u32, payload: &[u8], out: &mut Pipe) -> Result<(), NoMemory>
    requires { length payload.now ≤ 16368 }
    ensures ok { OnOk result (out.new ≡ out.old ++ frame_bytes (record { kind = kind; peer = peer; pid = pid; payload = payload.now })) }
    ensures err { OnErr result (Keeps out.old out.new) }
{
    let size = (HEADER_LENGTH + payload.len()) as u16;
    out.push(&header_as_bytes(kind, size, peer, pid))?;
    out.push(payload)?;
    Ok(())
}
