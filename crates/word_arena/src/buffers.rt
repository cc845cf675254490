//! The writer's own copy of the buffers' states.
ghost use Rattle.std.specs.Prelude.{◌≡◌, ◌↔◌, ◌<◌, ◌≤◌, length, IsNone, IfSome, slice_get};
ghost use Rattle.arena_api.specs.Works.{active_width, free_count, is_free as is_free_buffer};
ghost use Rattle.arena_api.specs.Calls.{IsLowestFree};
ghost use Rattle.gen_core.specs.Views.{last_tag_in};
ghost use Rattle.word_arena.specs.Knows.{api_buffer, buffers_by};
ghost use Rattle.word_arena.specs.WriterSteps.{unused_tag_in};

use gen_core::{Buffer, Tag};

/// Returns the width of an active buffer, or 0 for any other.
pub(crate) fn width_of(buffers: &[Buffer], buffer: u32) -> u64
    requires { buffer < length buffers.now }
    ensures { result ≡ active_width (buffers_by buffers.now buffer) }
{
    match buffers[buffer as usize] {
        Buffer::Free(_) => 0,
        Buffer::Active(width, _) => width,
        Buffer::Held(_, _) => 0,
    }
}

/// Returns a buffer's last tag.
pub(crate) fn last_of(buffers: &[Buffer], buffer: u32) -> Option<Tag>
    requires { buffer < length buffers.now }
    ensures { result ≡ last_tag_in buffers.now buffer }
{
    match buffers[buffer as usize] {
        Buffer::Free(last) => last,
        Buffer::Active(_, last) => last,
        Buffer::Held(_, tag) => Some(tag),
    }
}

/// Returns the tag of a buffer on hold, if its generation is below `generation`.
pub(crate) fn unused_tag(buffers: &[Buffer], buffer: u32, generation: u64) -> Option<Tag>
    requires { buffer < length buffers.now }
    ensures { result ≡ unused_tag_in generation buffers.now buffer }
{
    match buffers[buffer as usize] {
        Buffer::Free(_) => None,
        Buffer::Active(_, _) => None,
        Buffer::Held(_, tag) => {
            if tag.generation < generation {
                Some(tag)
            } else {
                None
            }
        }
    }
}

fn is_free(buffers: &[Buffer], buffer: u32) -> bool
    requires { buffer < length buffers.now }
    ensures { result ≡ is_free_buffer (buffers_by buffers.now buffer) }
{
    match buffers[buffer as usize] {
        Buffer::Free(_) => true,
        Buffer::Active(_, _) => false,
        Buffer::Held(_, _) => false,
    }
}

/// Returns the free buffer with the lowest number.
pub(crate) fn lowest_free(buffers: &[Buffer], count: u32) -> Option<u32>
    requires { count ≡ length buffers.now }
    ensures none { IsNone result ↔ (free_count (buffers_by buffers.now) count ≡ 0) }
    ensures lowest { IfSome result (IsLowestFree (buffers_by buffers.now) count) }
{
    for buffer in 0..count {
        if is_free(buffers, buffer) {
            return Some(buffer);
        }
    }
    None
}

pub(crate) fn count_free(buffers: &[Buffer], count: u32) -> u32
    requires { count ≡ length buffers.now }
    ensures { result ≡ free_count (buffers_by buffers.now) count }
{
    let mut free = 0;
    for buffer in 0..count {
        if is_free(buffers, buffer) {
            free += 1;
        }
    }
    free
}
