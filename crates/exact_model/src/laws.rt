// What holds of every solution, and that there is one.
ghost use Rattle.exact_model.specs.Laws.{EverySystemHasASolution, SolutionsAgree, FluxIsNowhereNegative, PatchesKeepTheSource, PatchesKeepTheDirectFlux, MissingFluxComesFromTheUnshot};

/// Every valid flux system has a solution for every direct flux.
pub fn every_system_has_a_solution()
    ensures { EverySystemHasASolution }
{}

/// Two solutions for one source give each patch the same flux.
pub fn solutions_agree()
    ensures { SolutionsAgree }
{}

/// No patch has a negative flux.
pub fn flux_is_nowhere_negative()
    ensures { FluxIsNowhereNegative }
{}

/// What all patches keep is what all sources give.
pub fn patches_keep_the_source()
    ensures { PatchesKeepTheSource }
{}

/// What all patches keep is the direct flux.
pub fn patches_keep_the_direct_flux()
    ensures { PatchesKeepTheDirectFlux }
{}

/// What a solution has beyond what was taken comes from what is unshot.
pub fn missing_flux_comes_from_the_unshot()
    ensures { MissingFluxComesFromTheUnshot }
{}
