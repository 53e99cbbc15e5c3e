// What C is told of a file.
ghost use Rattle.std.specs.Prelude.{◌≡◌};
ghost use Rattle.pf_c.specs.Files.{mode_in, meta_in, meta_of};

use pf_base::{Answer, Kind, Meta, Reply};

/// What is known of a file, as stat(2) tells it: the type and the mode in one number, the owner and the group.
#[repr(C)]
#[derive(Drop)]
pub struct SagMeta {
    pub mode: u32,
    pub uid: u32,
    pub gid: u32,
}

/// The type S_IFIFO or S_IFDIR and the mode, as st_mode has them (inode(7)).
fn mode_in(meta: &Meta) -> u32
    ensures { result ≡ mode_in meta.now.kind meta.now.mode }
{
    let bits = meta.mode.bits();
    match meta.kind {
        Kind::Fifo => 0o010_000 + bits,
        Kind::Directory => 0o040_000 + bits,
    }
}

/// What an answer tells of a file.
pub(crate) fn meta_of(answer: &Option<Answer>) -> Option<SagMeta>
    ensures { result ≡ meta_of answer.now }
{
    match answer {
        Some(Answer::Done(Reply::Meta(meta))) => Some(SagMeta {
            mode: mode_in(meta),
            uid: meta.uid,
            gid: meta.gid,
        }),
        _ => None,
    }
}
