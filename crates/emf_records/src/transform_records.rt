//! Transform records ([MS-EMF] 2.3.12): only the identity is supported.

ghost use Rattle.std.specs.Prelude.{◌≡◌, ◌+◌, ◌≤◌, length};
ghost use Rattle.draw_ops.specs.RecordOf.{decoded_of};
ghost use Rattle.draw_ops.specs.Results.{result_map};
ghost use Rattle.emf_records.specs.TransformRecords.{is_identity_at, keeps_transform, modify_world_transform, set_world_transform};

use crate::types::{EMR_MODIFYWORLDTRANSFORM, EMR_SETWORLDTRANSFORM};
use draw_ops::{Decoded, Op, RecordFault};
use point_views::u32_at;

/// The number 1 as a float.
const ONE: u32 = 0x3f800000;

/// The mode that sets the identity ([MS-EMF] 2.1.24).
const MWT_IDENTITY: u32 = 1;

/// The modes that multiply by a transform from the left or from the right, or set it.
const MWT_LEFTMULTIPLY: u32 = 2;

const MWT_SET: u32 = 4;

/// EMR_SETWORLDTRANSFORM: Xform.
pub(crate) fn set_world_transform(bytes: &[u8]) -> Result<Decoded<'_>, RecordFault>
    ensures value { set_world_transform bytes.entry.now ≡ result_map decoded_of result }
{
    if bytes.len() < 32 {
        return Err(RecordFault::BadParams);
    }
    if is_identity_at(bytes, 8) {
        Ok(Decoded::unnoted(Op::NoEffect))
    } else {
        Err(RecordFault::Unsupported(EMR_SETWORLDTRANSFORM))
    }
}

/// EMR_MODIFYWORLDTRANSFORM: Xform, ModifyWorldTransformMode.
pub(crate) fn modify_world_transform(bytes: &[u8]) -> Result<Decoded<'_>, RecordFault>
    ensures value { modify_world_transform bytes.entry.now ≡ result_map decoded_of result }
{
    if bytes.len() < 36 {
        return Err(RecordFault::BadParams);
    }
    if keeps_transform(u32_at(bytes, 32), is_identity_at(bytes, 8)) {
        Ok(Decoded::unnoted(Op::NoEffect))
    } else {
        Err(RecordFault::Unsupported(EMR_MODIFYWORLDTRANSFORM))
    }
}

/// Whether a mode with a transform leaves everything unchanged.
fn keeps_transform(mode: u32, is_identity: bool) -> bool
    ensures { result ≡ keeps_transform mode is_identity }
{
    mode == MWT_IDENTITY || (MWT_LEFTMULTIPLY <= mode && mode <= MWT_SET && is_identity)
}

/// Whether the XForm at an offset ([MS-EMF] 2.2.28) is the identity: M11, M12, M21, M22, Dx, Dy.
#[tactic(auto, unfolding(crate::specs::TransformRecords::is_identity_at))]
pub(crate) fn is_identity_at(bytes: &[u8], place: usize) -> bool
    requires { place + 24 ≤ length bytes.now }
    ensures { result ≡ is_identity_at bytes.now place }
{
    u32_at(bytes, place) == ONE
        && u32_at(bytes, place + 4) == 0
        && u32_at(bytes, place + 8) == 0
        && u32_at(bytes, place + 12) == ONE
        && u32_at(bytes, place + 16) == 0
        && u32_at(bytes, place + 20) == 0
}
