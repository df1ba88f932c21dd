//! The shortest and the longest request of each opcode, and the same with a byte less and a byte more.

use crate::tests::frames::{framed, push_times};
use fuse_protocol::*;
use std::alloc::{AllocError, Global};
use std::process::Abort;
use std::test::Fail;

/// What stands behind the struct and the names.
#[derive(Clone, Copy, PartialEq, Eq)]
enum Behind {
    Nothing,
    /// As many bytes, each so many, as the number says that stands so many bytes into the struct.
    Counted(usize, usize),
    Anything,
}

/// A request: the opcode's number, the struct's size, how many names follow and how long they may be, and what is
/// behind them.
type Shape = (usize, usize, usize, usize, Behind);

const N: Behind = Behind::Nothing;

/// The shapes of 7.45 with names of a page, as the structs of linux/fuse.h and Linux's requests have them.
const SHAPES: [Shape; 51] = [
    (1, 0, 1, 1024, N),
    (2, 8, 0, 0, N),
    (3, 16, 0, 0, N),
    (4, 88, 0, 0, N),
    (5, 0, 0, 0, N),
    (6, 0, 2, 1024, N),
    (8, 16, 1, 1024, N),
    (9, 8, 1, 1024, N),
    (10, 0, 1, 1024, N),
    (11, 0, 1, 1024, N),
    (12, 8, 2, 1024, N),
    (13, 8, 1, 1024, N),
    (14, 8, 0, 0, N),
    (15, 40, 0, 0, N),
    (16, 40, 0, 0, Behind::Counted(16, 1)),
    (17, 0, 0, 0, N),
    (18, 24, 0, 0, N),
    (20, 16, 0, 0, N),
    (21, 8, 1, 4095, Behind::Counted(0, 1)),
    (22, 8, 1, 4095, N),
    (23, 8, 0, 0, N),
    (24, 0, 1, 4095, N),
    (25, 24, 0, 0, N),
    (26, 16, 0, 0, Behind::Anything),
    (27, 8, 0, 0, N),
    (28, 40, 0, 0, N),
    (29, 24, 0, 0, N),
    (30, 16, 0, 0, N),
    (31, 48, 0, 0, N),
    (32, 48, 0, 0, N),
    (33, 48, 0, 0, N),
    (34, 8, 0, 0, N),
    (35, 16, 1, 1024, N),
    (36, 8, 0, 0, N),
    (37, 16, 0, 0, N),
    (38, 0, 0, 0, N),
    (39, 32, 0, 0, Behind::Counted(24, 1)),
    (40, 24, 0, 0, N),
    (41, 40, 0, 0, Behind::Counted(16, 1)),
    (42, 8, 0, 0, Behind::Counted(0, 16)),
    (43, 32, 0, 0, N),
    (44, 40, 0, 0, N),
    (45, 16, 2, 1024, N),
    (46, 24, 0, 0, N),
    (47, 56, 0, 0, N),
    (48, 40, 0, 0, N),
    (49, 4, 0, 0, Behind::Counted(0, 16)),
    (50, 8, 0, 0, N),
    (51, 16, 1, 4095, N),
    (52, 24, 0, 0, N),
    (53, 56, 0, 0, N),
];

/// What stands behind the header: names of so many bytes, and a tail of so many units.
fn body_of(alloc: Global, shape: Shape, name: usize, units: usize) -> Result<Vec<u8>, AllocError> {
    let (_code, fixed, names, _longest, behind) = shape;
    let mut body = Vec::new(alloc);
    for i in 0..fixed {
        let is_count = matches!(behind, Behind::Counted(at, _) if at == i);
        body.push(if is_count { (units % 256) as u8 } else { 0 })?;
    }
    for _ in 0..names {
        push_times(&mut body, name, b'a')?;
        body.push(0)?;
    }
    if let Behind::Counted(_, size) = behind {
        for _ in 0..units {
            push_times(&mut body, size, 7)?;
        }
    }
    Ok(body)
}

/// What is wrong with a frame, if anything is.
fn fault_of(alloc: Global, code: usize, body: &[u8]) -> Result<Option<ShapeFault>, AllocError> {
    let frame = framed(alloc, 40, code, body)?;
    Ok(match read_request(BEFORE_INIT, frame.as_slice()) {
        Ok(_) => None,
        Err(fault) => Some(fault),
    })
}

/// What is wrong where the last byte is missing.
fn fault_of_less(shape: Shape, units: usize) -> ShapeFault {
    let (_code, fixed, names, _longest, behind) = shape;
    if units > 0 && matches!(behind, Behind::Counted(_, _)) {
        ShapeFault::Tail
    } else if names > 0 {
        ShapeFault::Name
    } else if fixed > 0 {
        ShapeFault::Struct
    } else {
        ShapeFault::Short
    }
}

/// What is wrong where a byte follows the last.
fn fault_of_more(shape: Shape) -> Option<ShapeFault> {
    if matches!(shape.4, Behind::Anything) {
        None
    } else {
        Some(ShapeFault::Tail)
    }
}

/// What is wrong with a frame without its last byte.
fn fault_without_last(
    alloc: Global,
    code: usize,
    body: &[u8],
) -> Result<Option<ShapeFault>, AllocError> {
    match body.split_last() {
        Some((_last, front)) => fault_of(alloc, code, front),
        None => Ok(Some(ShapeFault::Short)),
    }
}

/// What is wrong with a request, with the same without its last byte, and with a byte behind it.
fn faults_of(
    alloc: Global,
    shape: Shape,
    name: usize,
    units: usize,
) -> Result<[Option<ShapeFault>; 3], AllocError> {
    let mut body = body_of(alloc, shape, name, units)?;
    let whole = fault_of(alloc, shape.0, body.as_slice())?;
    let less = fault_without_last(alloc, shape.0, body.as_slice())?;
    body.push(7)?;
    let more = fault_of(alloc, shape.0, body.as_slice())?;
    Ok([whole, less, more])
}

/// Whether a request of its shape has no fault, and one of a byte less or a byte more the fault that it must.
fn has_its_shape(
    alloc: Global,
    shape: Shape,
    name: usize,
    units: usize,
) -> Result<bool, AllocError> {
    let [whole, less, more] = faults_of(alloc, shape, name, units)?;
    Ok(whole.is_none() && less == Some(fault_of_less(shape, units)) && more == fault_of_more(shape))
}

#[test]
fn each_opcode_has_its_shape(rt: HostRuntime) -> Result<(), Fail> {
    for shape in SHAPES.iter() {
        let (code, _fixed, _names, longest, _behind) = *shape;
        assert!(rt; has_its_shape(rt.alloc(), *shape, 1, 0)?, "{code}");
        assert!(rt;
            has_its_shape(rt.alloc(), *shape, longest, 200)?,
            "{code}: the longest"
        );
    }
    Ok(())
}

/// Whether a request of names of a byte more than they may have is refused for its name, if it has names.
fn refuses_a_longer_name(alloc: Global, shape: Shape) -> Result<bool, AllocError> {
    let (code, _fixed, names, longest, _behind) = shape;
    let body = body_of(alloc, shape, longest.saturating_add(1), 0)?;
    let fault = fault_of(alloc, code, body.as_slice())?;
    Ok(names == 0 || fault == Some(ShapeFault::Name))
}

#[test]
fn a_longer_name_is_refused(rt: HostRuntime) -> Result<(), Fail> {
    for shape in SHAPES.iter() {
        assert!(rt; refuses_a_longer_name(rt.alloc(), *shape)?, "{}", shape.0);
    }
    Ok(())
}
