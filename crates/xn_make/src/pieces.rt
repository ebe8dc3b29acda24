//! Bytes put at places.

ghost use Rattle.std.specs.Prelude.{◌≡◌, ◌+◌, ◌*◌, ◌≤◌, length};
ghost use Rattle.xn_bytes.specs.Numbers.{overlaid};

/// Puts bytes at a place.
pub fn put_bytes(bytes: &mut [u8], at: usize, piece: &[u8])
    requires { at + length piece.now ≤ length bytes.old }
    ensures value { bytes.new ≡ overlaid bytes.old at piece.now }
    ensures length { length bytes.new ≡ length bytes.old }
{
    bytes[at..at + piece.len()].copy_from_slice(piece);
}

/// Puts a sector of an image at its place.
pub fn put_sector(image: &mut [u8], sector: usize, bytes: &[u8; 512])
    requires { 512 * sector + 512 ≤ length image.old }
    ensures value { image.new ≡ overlaid image.old (512 * sector) bytes.now }
    ensures length { length image.new ≡ length image.old }
{
    put_bytes(image, 512 * sector, bytes);
}
