// What migration keeps.
ghost use Rattle.project_file.specs.Migration.{MigrationKeepsTheProject};

/// What a file of version 1 says is what the file of version 2 says that stands for it.
pub fn migration_keeps_the_project()
    ensures { MigrationKeepsTheProject }
{}
