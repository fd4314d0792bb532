//! What holds of all images.

ghost use Rattle.gufi_image.specs.Laws.{ImagesReadBack, ImagesHaveOneSpelling, ReadImagesAreWritable};

/// The law of written images: what is written of a snapshot is read back to the same snapshot.
pub fn written_images_read_back()
    ensures { ImagesReadBack }
{}

/// The laws of read images: bytes mean a snapshot only where they are the image that is written of it, and what they
/// mean can be written.
pub fn images_have_one_spelling()
    ensures spelling { ImagesHaveOneSpelling }
    ensures writable { ReadImagesAreWritable }
{}
