// How long the files that commands read may be.

/// The most bytes of an object's file.
pub const OBJECT_LIMIT: u32 = 4_194_304;

/// The most bytes of an image's file.
pub const IMAGE_LIMIT: u32 = 8_388_608;
