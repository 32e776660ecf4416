//! Listening at an address that is written as a text.
use crate::streams::Listener;
use mio::net::{TcpListener, UnixListener, UnixStream};
use std::net::{Net, SocketAddr, SocketAddrV4};
use std::os::unix::fs::FileTypeExt;
use std::{fs, io, rt};

/// Listens at `tcp:a.b.c.d:port` or at `unix:` and a path, which is not empty: the system takes an empty
/// one for a name of its own choice.
pub(crate) fn listen<R: Net + rt::Files>(rt: &R, address: &str) -> io::Result<Listener> {
    if let Some(place) = address.strip_prefix("tcp:") {
        let Ok(place) = place.parse::<SocketAddrV4>() else {
            return Err(io::Error::from(io::ErrorKind::InvalidInput));
        };
        return Ok(Listener::Tcp(TcpListener::bind(rt, SocketAddr::V4(place))?));
    }
    if let Some(path) = address.strip_prefix("unix:") {
        if path.is_empty() {
            return Err(io::Error::from(io::ErrorKind::InvalidInput));
        }
        clear(rt, path)?;
        return Ok(Listener::Unix(UnixListener::bind(rt, path)?));
    }
    Err(io::Error::from(io::ErrorKind::InvalidInput))
}

// Removes a socket file at which nobody listens, as an earlier run leaves it. Any other file stays: a
// plain file refuses a connection too.
fn clear<R: Net + rt::Files>(rt: &R, path: &str) -> io::Result<()> {
    let Ok(about) = fs::symlink_metadata(rt, path) else {
        return Ok(());
    };
    if !about.file_type().is_socket() {
        return Ok(());
    }
    match UnixStream::connect(rt, path) {
        Err(error) if error.kind() == io::ErrorKind::ConnectionRefused => fs::remove_file(rt, path),
        _ => Ok(()),
    }
}
