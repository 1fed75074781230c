//! Laws of sockets: what a socket received at its end of a connection is what was sent there.

ghost use Rattle.xti_laws_streams.specs.Sockets.{OfSockets, GetsItsStream, GetsPrefix, GetsAll};

/// A socket at one end of a connection receives what the other end sent.
///
/// Of every legal history whose sends are of bytes, of either end of a connection of a byte stream, and of the one
/// worker that receives there. `got`: the bytes of all its receives, joined, are the normal data that the end got.
/// `prefix`: so they are a prefix of the normal data that the other end sent. `release`: they are all of it where the
/// socket received the orderly release.
pub fn sockets_get_what_was_sent()
    ensures got { OfSockets GetsItsStream }
    ensures prefix { OfSockets GetsPrefix }
    ensures release { OfSockets GetsAll }
{}
