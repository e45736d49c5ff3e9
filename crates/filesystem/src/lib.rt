#![tactic(auto)]

// What the guard keeps of files, as definitions: tables, rights, paths and the walk, the image. No code stands here.
