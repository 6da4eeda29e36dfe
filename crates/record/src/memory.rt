// Memory for 256 blocks, all zeros: 5 MiB of the stack's 8.
ghost use Rattle.std.specs.Prelude.{◌≡◌, length};

// The two sectors and the blocks.
pub(crate) fn disk() -> [u8; 1056768]
    ensures { 1056768 ≡ length result }
{
    [0; 1056768]
}

pub(crate) fn blocks() -> [u8; 1048576]
    ensures { 1048576 ≡ length result }
{
    [0; 1048576]
}

pub(crate) fn lengths() -> [u16; 1048576]
    ensures { 1048576 ≡ length result }
{
    [0; 1048576]
}
