//! Where a peer listens: a host and a port.

ghost use Rattle.std.specs.Prelude.{◌≡◌, MatchOption};
ghost use Rattle.std.specs.Char.{is_ascii_digit};
ghost use Rattle.std.specs.List.{list_all};
ghost use Rattle.std.specs.Str.Parse.{digits_value};
ghost use Rattle.ups_args.specs.Arguments.{IsAddress, IsPort, SaysAddress};

/// Returns whether a text has only decimal digits.
fn are_digits(text: &str) -> bool
    ensures { result ≡ list_all is_ascii_digit text.now }
{
    text.as_bytes().iter().all(|b| b.is_ascii_digit())
}

/// Parses the number of a port, from 1 to 65535, in decimal digits, or returns None if the text is no such number.
fn port_number(text: &str) -> Option<u16>
    ensures { MatchOption result (IsPort text.now → ⊥) (λ port. IsPort text.now × (port ≡ digits_value 10 text.now)) }
{
    if !are_digits(text) {
        return None;
    }
    let Ok(port) = text.parse::<u16>() else {
        return None;
    };
    if port == 0 {
        return None;
    }
    Some(port)
}

/// Where a peer listens.
#[derive(Clone, Copy)]
pub(crate) struct Address<'a> {
    /// A name, or an IP address.
    pub(crate) host: &'a str,
    /// From 1 to 65535.
    pub(crate) port: u16,
}

/// Parses an address, host:port, or returns None if the text is no address. The last colon begins the port.
pub(crate) fn address_of<'a>(text: &'a str) -> Option<Address<'a>>
    ensures { MatchOption result (IsAddress text.now → ⊥) (λ address. SaysAddress text.now address.host.now address.port) }
{
    let (host, port) = text.rsplit_once(':')?;
    if host.is_empty() {
        return None;
    }
    let port = port_number(port)?;
    Some(Address { host, port })
}
