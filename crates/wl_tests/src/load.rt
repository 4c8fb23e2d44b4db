//! How much fuel a run takes.

use std::alloc::{AllocError, Global};
use wl_lists::ItemList;
use wl_load::{Image, ImageFunction, ImageParts, RunEnd};
use wl_module::FuncType;

/// The bodies of two functions without parameters and results, of which the first calls the second,
/// and that one does nothing.
const BODIES: [&[u8]; 2] = [&[0x00, 0x10, 0x01, 0x0b], &[0x00, 0x0b]];

/// These functions.
fn functions(alloc: Global) -> Result<ItemList<ImageFunction>, AllocError> {
    let mut functions = ItemList::empty(alloc);
    for body in &BODIES {
        functions.push(ImageFunction {
            type_index: 0,
            body: ItemList::new(Vec::from_slice(alloc, body)?),
        })?;
    }
    Ok(functions)
}

/// Their type.
fn types(alloc: Global) -> Result<ItemList<FuncType>, AllocError> {
    let mut types = ItemList::empty(alloc);
    types.push(FuncType::new(Vec::new(alloc), Vec::new(alloc)))?;
    Ok(types)
}

/// What an image has that has types and functions, and nothing else.
fn parts(
    alloc: Global,
    types: ItemList<FuncType>,
    functions: ItemList<ImageFunction>,
) -> ImageParts {
    ImageParts {
        types,
        memory: ItemList::empty(alloc),
        maximum_pages: None,
        shared: false,
        globals: ItemList::empty(alloc),
        table: ItemList::empty(alloc),
        hosts: ItemList::empty(alloc),
        functions,
        segments: ItemList::empty(alloc),
    }
}

/// The image of these parts, where they fit together.
fn image_of(alloc: Global, parts: ImageParts) -> Option<Image> {
    if parts.are_fit() {
        Image::new(alloc, parts).ok()
    } else {
        None
    }
}

/// The image of the two functions.
fn image(alloc: Global) -> Option<Image> {
    match (types(alloc), functions(alloc)) {
        (Ok(types), Ok(functions)) => image_of(alloc, parts(alloc, types, functions)),
        _ => None,
    }
}

/// Whether a run of the first function returns with so much fuel, or takes it all.
fn returns(image: &mut Image, fuel: u64) -> Option<bool> {
    if !image.can_run(0, &[]) {
        return None;
    }
    match image.run(0, &[], fuel) {
        RunEnd::Done(_) => Some(true),
        RunEnd::OutOfFuel => Some(false),
        _ => None,
    }
}

/// Whether it takes the fuel of three operators.
fn takes_three(alloc: Global) -> bool {
    match image(alloc) {
        Some(mut image) => {
            returns(&mut image, 2) == Some(false) && returns(&mut image, 3) == Some(true)
        }
        None => false,
    }
}

#[test]
fn fuel_is_a_step_for_each_operator(rt: HostRuntime) {
    assert!(rt; takes_three(rt.alloc()));
}
