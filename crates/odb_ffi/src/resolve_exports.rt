//! The call for C that says where a request is sent.

ghost use Rattle.odb_calls.specs.Targets.{Resolves};

use odb_calls::targets::{give_target, target_of};
use std::alloc::Global;

/// Says where a request of a batch is sent: its URL below one of the roots of a service, or that it leads out of them.
///
/// `base` is the absolute URL of the folder of `$batch`, to which `url` is joined, and `roots` has the roots, one a line, each of
/// which ends with `/`. Of a request that refers to another one, `url` is what follows the reference, `sent` the URL to which that
/// one was sent, `location` the `Location` of its answer, or empty, and `post` not 0 if it was a POST. Of any other request `sent`
/// is empty.
///
/// Sets `text_length` to the length of the URL and returns 0, and `text` begins with it; or 5 if it is longer than `text`. Else
/// the length is 0, and it returns from 31 to 33 if the request is not sent: the URL cannot be read, it leads out of the roots, or
/// the POST was answered without a `Location`; and 4 if an allocation fails. Unless it returns 0, `text` is as it was.
#[unsafe(no_mangle)]
pub extern "C" fn odb_resolve(
    alloc: Global,
    base: &[u8],
    roots: &[u8],
    url: &[u8],
    sent: &[u8],
    location: &[u8],
    post: u32,
    text: &mut [u8],
    text_length: &mut usize,
) -> u32
    ensures { Resolves base.now roots.now url.now sent.now location.now post result text_length.new text.old
        text.new }
{
    let target = target_of(alloc, base, roots, url, sent, location, post);
    give_target(target, text, text_length)
}
