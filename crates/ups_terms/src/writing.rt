//! Terms as text.

ghost use Rattle.std.specs.Prelude.{◌≡◌, ◌++◌, IfOk, OnOk, string_bytes};
ghost use Rattle.ups_terms.specs.Text.{peer_line, terms_text};

use std::alloc::{AllocError, Allocator};
use ups_life::Peer;
use ups_pdu::Ae;

/// Appends a title.
fn push_title<A: Allocator>(text: &mut String<A>, ae: Ae) -> Result<(), AllocError>
    ensures { OnOk result (string_bytes text.new ≡ string_bytes text.old ++ ae) }
{
    for byte in ae.as_bytes() {
        text.push(char::from(*byte))?;
    }
    Ok(())
}

/// Appends the line of a peer.
fn push_peer<A: Allocator>(text: &mut String<A>, peer: &Peer) -> Result<(), AllocError>
    ensures { OnOk result (string_bytes text.new ≡ string_bytes text.old ++ peer_line peer.now) }
{
    text.push_str(if peer.lock { "lock=" } else { "peer=" })?;
    push_title(text, peer.ae)?;
    text.push_str("\n")?;
    Ok(())
}

/// Returns the text of terms: a line for how long finished steps are kept, in seconds, one for the offset from UTC, in
/// minutes, and one for each peer, in their order.
pub fn terms_text<A: Allocator + Copy>(
    alloc: A,
    keep: u32,
    offset: i16,
    peers: &[Peer],
) -> Result<String<A>, AllocError>
    ensures { IfOk result (λ text. string_bytes text ≡ terms_text keep offset peers.now) }
{
    let mut text = format!(in alloc; "keep={keep}\noffset={offset}\n")?;
    for peer in peers {
        push_peer(&mut text, peer)?;
    }
    Ok(text)
}
