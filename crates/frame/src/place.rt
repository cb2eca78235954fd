// The payload's place in a packet that was read.
ghost use Rattle.std.specs.Prelude.{◌≡◌, ◌+◌};
ghost use Rattle.framing.specs.Payload.{payload_start, payload_of, payload_at};

// Where a payload begins: behind the header, and behind the IV where there is one. This and `payload` take a bool and no `Confidentiality`: so do
// `payload_start` and `payload_of`, and callers hand in what `encrypts` answers.
fn find_start(encrypted: bool) -> usize
    ensures { result ≡ payload_start encrypted }
{
    if encrypted { 28 } else { 12 }
}

// The payload of `len` bytes as a part of the packet that was read; empty where it would pass the packet's end.
#[tactic(auto, unfolding(framing::specs::Payload::payload_of, framing::specs::Payload::payload_at))]
pub fn payload(packet: &[u8], encrypted: bool, len: usize) -> &[u8]
    ensures { (result.now ≡ payload_of packet.now encrypted len)
        × (result.ref_ptr.0 ≡ packet.entry.ref_ptr.0) × (result.ref_ptr.1 ≡ packet.entry.ref_ptr.1 + payload_at packet.now encrypted len) }
{
    let start = find_start(encrypted);
    if start <= packet.len() && len <= packet.len() - start {
        &packet[start..start + len]
    } else {
        &packet[..0]
    }
}
