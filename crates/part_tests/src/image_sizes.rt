//! Images of every width and height, with comments of every length before the raster and any number of bytes after it:
//! all are read.

use canvas::Canvas;
use std::alloc::{AllocError, Global};

/// A P6 text (ppm(5)) of black pixels, with a comment of this many letters in its header.
fn text_of(alloc: Global, width: u32, height: u32, letters: usize) -> Result<Vec<u8>, AllocError> {
    let head = format!(in alloc; "P6 {width} {height} #")?;
    let mut text = Vec::from_slice(alloc, head.as_bytes())?;
    let end = text.len().saturating_add(letters);
    text.resize(end, b'a')?;
    text.extend_from_slice(b"\n255\n")?;
    let pixels = (width as usize).wrapping_mul(height as usize);
    let end = text.len().wrapping_add(pixels.wrapping_mul(3));
    text.resize(end, 0)?;
    Ok(text)
}

/// Whether a text is read as an image of this size.
fn is_image(alloc: Global, text: &[u8], width: u32, height: u32) -> bool {
    match Canvas::from_ppm(alloc, text) {
        Ok(canvas) => canvas.width() == width && canvas.rows() == height,
        Err(_) => false,
    }
}

/// Whether an image of this size is read.
fn is_read(alloc: Global, width: u32, height: u32) -> Result<bool, AllocError> {
    let text = text_of(alloc, width, height, 0)?;
    Ok(is_image(alloc, text.as_slice(), width, height))
}

#[test]
fn an_image_has_each_width_and_each_height(rt: HostRuntime) -> Result<(), AllocError> {
    for side in 1..8193 {
        assert!(rt; is_read(rt.alloc(), side, 1)?, "{side} by 1");
        assert!(rt; is_read(rt.alloc(), 1, side)?, "1 by {side}");
        assert!(rt; is_read(rt.alloc(), side, 3)?, "{side} by 3");
        assert!(rt; is_read(rt.alloc(), 2, side)?, "2 by {side}");
    }
    Ok(())
}

#[test]
fn an_image_has_a_comment_of_each_length(rt: HostRuntime) -> Result<(), AllocError> {
    for letters in 0..4100 {
        let text = text_of(rt.alloc(), 2, 3, letters)?;
        assert!(rt;
            is_image(rt.alloc(), text.as_slice(), 2, 3),
            "{letters} letters"
        );
    }
    Ok(())
}

#[test]
fn an_image_has_each_count_of_bytes_after_it(rt: HostRuntime) -> Result<(), AllocError> {
    let mut text = text_of(rt.alloc(), 2, 3, 0)?;
    for count in 0..4100 {
        assert!(rt;
            is_image(rt.alloc(), text.as_slice(), 2, 3),
            "{count} bytes"
        );
        text.push(b'P')?;
    }
    Ok(())
}
