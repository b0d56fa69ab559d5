//! The rows.

use std::alloc::{AllocError, Global};

/// A command file, and what is wanted of it.
#[derive(Drop)]
pub struct Row {
    pub name: &'static str,
    pub commands: &'static str,
    pub wanted: &'static str,
}

pub fn rows(alloc: Global) -> Result<Vec<Row>, AllocError> {
    let mut rows = Vec::new(alloc);
    rows.push(Row {
        name: "a block is granted and synced",
        commands: "1 alloc a 4096 normal 1\n1 sync\n",
        wanted: "1 alloc a granted 5 normal 0:0:4096\n1 sync done 5\nmetaslab 0 0 live 1 deferred 0 vacant 255\nclass normal live 4096 deferred 0 vacant 1044480\npool live 4096 deferred 0 vacant 1044480\ngroup 5\n",
    })?;
    rows.push(Row {
        name: "what is freed is vacant two groups later",
        commands: "1 alloc a 1048576 normal 1\n1 free a\n1 sync\n1 alloc b 4096 normal 1\n1 sync\n1 alloc c 4096 normal 1\n1 sync\n1 alloc d 4096 normal 1\n",
        wanted: "1 alloc a granted 5 normal 0:0:1048576\n1 free a done 5\n1 sync done 5\n1 alloc b nospace 1\n1 sync done 6\n1 alloc c nospace 1\n1 sync done 7\n1 alloc d granted 8 normal 0:0:4096\nmetaslab 0 0 live 1 deferred 0 vacant 255\nclass normal live 4096 deferred 0 vacant 1044480\npool live 4096 deferred 0 vacant 1044480\ngroup 7\n",
    })?;
    rows.push(Row {
        name: "a block is freed once, and by its name",
        commands: "1 alloc a 8192 normal 1\n1 free a\n1 free a\n1 free x\n",
        wanted: "1 alloc a granted 5 normal 0:0:8192\n1 free a done 5\n1 free a notlive 0:0\n1 free x noname\nmetaslab 0 0 live 0 deferred 2 vacant 254\nclass normal live 0 deferred 8192 vacant 1040384\npool live 0 deferred 8192 vacant 1040384\ngroup 4\n",
    })?;
    rows.push(Row {
        name: "sizes and copies outside the limits",
        commands: "1 alloc a 0 normal 1\n1 alloc b 16777216 normal 1\n1 alloc c 16777217 normal 1\n1 alloc d 4096 normal 4\n",
        wanted: "1 alloc a badsize\n1 alloc b nospace 1\n1 alloc c badsize\n1 alloc d badcopies\nmetaslab 0 0 live 0 deferred 0 vacant 256\nclass normal live 0 deferred 0 vacant 1048576\npool live 0 deferred 0 vacant 1048576\ngroup 4\n",
    })?;
    rows.push(Row {
        name: "a copy without a place takes the others back",
        commands: "1 alloc a 614400 normal 2\n",
        wanted: "1 alloc a nospace 1\nmetaslab 0 0 live 0 deferred 0 vacant 256\nclass normal live 0 deferred 0 vacant 1048576\npool live 0 deferred 0 vacant 1048576\ngroup 4\n",
    })?;
    rows.push(Row {
        name: "a class without a vdev gives way to normal",
        commands: "1 alloc a 4096 special 1\n",
        wanted: "1 alloc a granted 5 normal 0:0:4096\nmetaslab 0 0 live 1 deferred 0 vacant 255\nclass normal live 4096 deferred 0 vacant 1044480\npool live 4096 deferred 0 vacant 1044480\ngroup 4\n",
    })?;
    rows.push(Row {
        name: "no command",
        commands: "",
        wanted: "metaslab 0 0 live 0 deferred 0 vacant 256\nclass normal live 0 deferred 0 vacant 1048576\npool live 0 deferred 0 vacant 1048576\ngroup 4\n",
    })?;
    Ok(rows)
}
