// What is known of loads, whichever way they were made.
ghost use Rattle.loader.specs.PartialLoads.{WholeImagesGoOn};

/// A partial load holds wherever it may: under the kept sequence a kept image goes on to each whole image that is shown.
pub fn a_kept_image_goes_on_to_a_whole_one()
    ensures { WholeImagesGoOn }
{}
