//! At which address ports listen.
ghost use Rattle.std.specs.Prelude.{◌≡◌, None, option_map, IfOk, IfSome};
ghost use Rattle.sysr.specs.declared.places.TheConstants.{HERE};

use crate::command::Serving;
use std::fmt;
use std::fmt::{Display, Formatter};
use std::net::{IpAddr, Ipv4Addr, SocketAddr};
use std::process::ExitCode;

// The address of this machine that no other can reach.
const HERE: IpAddr = IpAddr::V4(Ipv4Addr::LOCALHOST);

// The status of a command line that is refused.
const REFUSED: u8 = 2;

/// Tells on standard error why the command line is refused.
pub fn refuse(host: &HostRuntime, why: &str) -> ExitCode {
    let _ = eprintln!(host; "error: {why}");
    ExitCode::from(REFUSED)
}

/// A port, and its address.
#[derive(Clone, Copy)]
pub struct Place {
    pub address: IpAddr,
    pub port: u16,
}

/// The places of a server's ports: of one for any clients, and of one for PostgreSQL's.
#[derive(Clone, Copy)]
pub struct Places {
    pub port: Option<Place>,
    pub pg_port: Option<Place>,
}

impl Display for Place {
    fn fmt<W: fmt::Write>(&self, f: &mut Formatter<W>) -> fmt::Result {
        if self.address == HERE {
            return write!(f, "{}", self.port);
        }
        write!(f, "{}", SocketAddr::new(self.address, self.port))
    }
}

/// The address of the ports that are asked for. The error is the status of a command line that is
/// refused: it says no address, or another one than 127.0.0.1 where nobody logs in.
fn address_of(host: &HostRuntime, asked: Serving<'_>) -> Result<IpAddr, ExitCode>
    ensures { asked.entry.users ≡ None → IfOk result (λ address. address ≡ HERE) }
{
    let Some(word) = asked.listen else {
        return Ok(HERE);
    };
    match word.parse::<IpAddr>() {
        Ok(address) if address == HERE || asked.users.is_some() => Ok(address),
        Ok(_) => {
            let why = "--listen takes another address than 127.0.0.1 only with --users";
            Err(refuse(host, why))
        }
        Err(_) => Err(refuse(host, "--listen takes an address, as 127.0.0.1 or ::")),
    }
}

/// This port at the address, if there is one.
fn place_at(address: IpAddr, port: Option<u16>) -> Option<Place>
    ensures address { IfSome result (λ place. place.address ≡ address) }
    ensures port { option_map (λ place. place.port) result ≡ port }
{
    let port = port?;
    Some(Place { address, port })
}

/// The ports that are asked for, each if it is, with their address: where nobody logs in, no other
/// machine can reach them. The error is the status, as of [`address_of`].
pub fn places_of(host: &HostRuntime, asked: Serving<'_>) -> Result<Places, ExitCode>
    ensures here { asked.entry.users ≡ None → IfOk result
        (λ places. IfSome places.port (λ p. p.address ≡ HERE)
        × IfSome places.pg_port (λ p. p.address ≡ HERE)) }
    ensures port { IfOk result
        (λ places. option_map (λ p. p.port) places.port ≡ asked.entry.port) }
    ensures pg_port { IfOk result
        (λ places. option_map (λ p. p.port) places.pg_port ≡ asked.entry.pg_port) }
{
    let address = address_of(host, asked)?;
    Ok(Places {
        port: place_at(address, asked.port),
        pg_port: place_at(address, asked.pg_port),
    })
}
