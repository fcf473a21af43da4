// What salvaging a marked pack answers is specifications only: see specs/.
