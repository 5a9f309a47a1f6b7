// Each function stands for the theorem in its contract.
ghost use Rattle.image_format.specs.Images.{ImagesStand, ImageExample};

/// Writing an image and reading it undo each other.
pub fn images_stand()
    ensures { ImagesStand }
{}

/// The worked example: a table of three edges, and the bytes of its image.
pub fn image_example_holds()
    ensures { ImageExample }
{}
